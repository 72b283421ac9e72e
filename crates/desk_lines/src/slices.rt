// Slices as they are written: by their names.
use crate::faults::Fault;
use crate::words::FromWord;

// One of the three slices of the memory.
#[derive(Clone, Copy, Debug, PartialEq, Eq)]
pub enum Slice {
    Bands,
    Nodes,
    Marks,
}

impl FromWord for Slice {
    fn from_word(word: &[u8]) -> Result<Slice, Fault> {
        match word {
            b"bands" => Ok(Slice::Bands),
            b"nodes" => Ok(Slice::Nodes),
            b"marks" => Ok(Slice::Marks),
            _ => Err(Fault::NotASlice),
        }
    }
}

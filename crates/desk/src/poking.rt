// The lent memory as words: filled, poked, peeked at and summed.
use desk_lines::{Fault, Slice};
use store::{Memory, MemoryMut};

// Each word is added to so many times the sum of those before it, modulo a prime.
const TIMES: u64 = 31;

const PRIME: u64 = 4294967291;

pub(crate) fn fill(memory: &mut MemoryMut<'_>, word: u32) {
    memory.bands.fill(word);
    memory.nodes.fill(word);
    memory.marks.fill(word);
}

pub(crate) fn poke(
    memory: &mut MemoryMut<'_>,
    slice: Slice,
    index: u32,
    word: u32,
) -> Result<(), Fault> {
    let place = slice_mut(memory, slice).get_mut(index as usize);
    *place.ok_or(Fault::NoSuchWord)? = word;
    Ok(())
}

pub(crate) fn peek(memory: Memory<'_>, slice: Slice, index: u32) -> Result<u32, Fault> {
    let words = match slice {
        Slice::Bands => memory.bands,
        Slice::Nodes => memory.nodes,
        Slice::Marks => memory.marks,
    };
    words.get(index as usize).copied().ok_or(Fault::NoSuchWord)
}

// Over the words of bands, then nodes, then marks. Slice by slice: a chain of the three takes more than a quarter more time, since it asks at each
// word which of them it has come to.
pub(crate) fn sum(memory: Memory<'_>) -> u32 {
    let slices = [memory.bands, memory.nodes, memory.marks];
    slices.iter().fold(0, |sum, words| sum_on(sum, words))
}

fn sum_on(sum: u32, words: &[u32]) -> u32 {
    words.iter().fold(sum, |sum, word| sum_with(sum, *word))
}

// The slice that is meant, to write in: `peek` picks it by itself, since it is lent by `&`.
fn slice_mut<'a>(memory: &'a mut MemoryMut<'_>, slice: Slice) -> &'a mut [u32] {
    match slice {
        Slice::Bands => memory.bands,
        Slice::Nodes => memory.nodes,
        Slice::Marks => memory.marks,
    }
}

// The sum with a word more.
fn sum_with(sum: u32, word: u32) -> u32 {
    ((sum as u64 * TIMES + word as u64 + 1) % PRIME) as u32
}

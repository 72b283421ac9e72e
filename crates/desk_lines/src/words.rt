// The words of a line: what stands between blanks.
ghost use Rattle.std.specs.Prelude.{◌≡◌, ◌==◌, ◌||◌, length};
ghost use Rattle.std.specs.Iterator.{at_most};

use crate::faults::Fault;

// What a word can say.
pub(crate) trait FromWord: Sized {
    fn from_word(word: &[u8]) -> Result<Self, Fault>;
}

// Word after word, from what is left of the line.
#[derive(Drop)]
pub(crate) struct Words<'a> {
    rest: &'a [u8],
}

fn is_blank(byte: &u8) -> bool
    ensures { result ≡ (byte.now == 32) || (byte.now == 9) }
{
    matches!(*byte, b' ' | b'\t')
}

impl<'a> Words<'a> {
    pub(crate) fn of(line: &'a [u8]) -> Words<'a> {
        Words { rest: line }
    }

    // What the next word says.
    pub(crate) fn read<T: FromWord>(&mut self) -> Result<T, Fault> {
        let word = self.next().ok_or(Fault::WordMissing)?;
        T::from_word(word)
    }
}

impl<'a> Iterator for Words<'a> {
    type Item = &'a [u8];

    // Each word takes a byte at least.
    ghost remaining = { λ words. at_most (length words.rest.now) };

    fn next(&mut self) -> Option<&'a [u8]> {
        let start = self.rest.iter().position(|byte| !is_blank(byte))?;
        let begun = &self.rest[start..];
        let end = begun.iter().position(is_blank).unwrap_or(begun.len());
        let (word, rest) = begun.split_at(end);
        self.rest = rest;
        Some(word)
    }
}

// The lent memory as one value: its three slices, lent to be asked or to be changed; and which lengths of them are right.
ghost use Rattle.std.specs.Prelude.{◌≡◌};
ghost use Rattle.store.specs.Sizes.{sizes_right};
ghost use Rattle.store.specs.Memory.{lengths_in};
ghost use Rattle.store.specs.LentMemory.{words_in, words_in_mut};

use crate::places::NODE_PLACE_WORDS;
use crate::sizes::{BAND_WORDS, MOST_MARKS, MOST_NODES};

// Lent to a call that only asks.
#[derive(Clone, Copy)]
pub struct Memory<'a> {
    pub bands: &'a [u32],
    pub nodes: &'a [u32],
    pub marks: &'a [u32],
}

// Lent to a call that changes.
#[derive(Drop)]
pub struct MemoryMut<'a> {
    pub bands: &'a mut [u32],
    pub nodes: &'a mut [u32],
    pub marks: &'a mut [u32],
}

impl Memory<'_> {
    // Whether the slices have lengths that make a room. Tests are joined by `&`, which does not branch: so one answer proves them all, where `&&` has one
    // for each.
    pub fn sizes_right(self) -> bool
        ensures { result ≡ sizes_right (lengths_in (words_in self.entry)) }
    {
        let places = self.nodes.len() / NODE_PLACE_WORDS;
        let whole = (self.bands.len() == BAND_WORDS) & (self.nodes.len() % NODE_PLACE_WORDS == 0);
        let nodes_fit = (2 <= places) & (places <= MOST_NODES + 1);
        let marks_fit = (1 <= self.marks.len()) & (self.marks.len() <= MOST_MARKS);
        whole & nodes_fit & marks_fit
    }
}

impl MemoryMut<'_> {
    // The same, to be asked.
    pub fn to_ask(&self) -> Memory<'_>
        ensures { words_in result ≡ words_in_mut self.now }
    {
        Memory {
            bands: self.bands,
            nodes: self.nodes,
            marks: self.marks,
        }
    }
}

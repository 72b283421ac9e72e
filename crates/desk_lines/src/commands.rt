// What a line asks of the desk.
use crate::slices::Slice;
use hall::{Band, Entry, Key};

#[derive(Clone, Copy, Debug)]
pub enum Command {
    // Which words are lent: the memory of a room for so many nodes and marks, or so many words of each slice.
    Memory { nodes: u32, marks: u32 },
    Lengths { bands: u32, nodes: u32, marks: u32 },
    // On the lent words as words.
    Fill { word: u32 },
    Poke { slice: Slice, index: u32, word: u32 },
    Peek { slice: Slice, index: u32 },
    Sum,
    // Calls of the box.
    Empty,
    Insert(Entry),
    Remove { number: u32, scope: u32 },
    Stab(Key),
    Check,
    Band { number: u32 },
    Edge { key: Key, lane: u32 },
    Node(Key),
    Room,
    // A turn of the wheel.
    Wheel { place: u32 },
    // On the bench card.
    CardClear,
    CardAdd(Band),
    CardScan(Key),
    Help,
}

// The commands' names as `help` tells them: each once, a command that is said in two words by its first.
pub const NAMES: &str =
    "memory lengths fill poke peek sum empty insert remove stab check band edge node room wheel card help";

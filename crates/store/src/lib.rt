// The lent memory as words.
#![tactic(auto)]

mod memory;
mod places;
mod records;
mod sizes;
mod words;

pub use memory::{Memory, MemoryMut};
pub use places::{
    BAND_PLACE_WORDS, BAND_PLACES, FENCES, HEADER, HIGH_CLOSED, KEY, LANE_COUNT, LANES, LEVEL,
    LINKS, LIVE, LOW_CLOSED, MARKS_IN_USE, NODE_PLACE_WORDS, NODES_IN_USE, RESERVE, SLOTS_PER_NODE,
    band_word, node_word, put_node_word,
};
pub use records::{band_at, drop_band, is_live, put_band};
pub use sizes::{BAND_WORDS, MOST_MARKS, MOST_NODES};
pub use words::{clear, copy, put_word};

// The lengths and the numbers that bound a room.
use crate::places::{BAND_PLACE_WORDS, BAND_PLACES};

pub const BAND_WORDS: usize = BAND_PLACES as usize * BAND_PLACE_WORDS;

pub const MOST_NODES: usize = 2048;

pub const MOST_MARKS: usize = 16384;

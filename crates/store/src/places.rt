// Where each field stands, reading one and storing one. A word past the end of its slice reads as 0, and nothing is stored there.
ghost use Rattle.std.specs.Prelude.{◌≡◌, ◌<◌};
ghost use Rattle.store.specs.Places.{band_field, with_band_field, node_field, with_node_field};

use crate::words;

pub const BAND_PLACES: u32 = 1024;

pub const BAND_PLACE_WORDS: usize = 8;

pub const NODE_PLACE_WORDS: usize = 20;

// A band place: whether the number is live, and the band's numbers.
pub const LIVE: usize = 0;

pub(crate) const SCOPE: usize = 1;

pub(crate) const LOW: usize = 2;

pub(crate) const HIGH: usize = 3;

pub const LOW_CLOSED: usize = 4;

pub const HIGH_CLOSED: usize = 5;

// The first of the two words of zero past them.
pub const RESERVE: usize = 6;

// A node place: key, level, a link for each lane, and the fences: how many marks stand before each slot, and how many up to the last slot's end.
pub const KEY: usize = 0;

pub const LEVEL: usize = 1;

pub const LINKS: usize = 2;

pub const FENCES: usize = 10;

// The node's own slot, and one for each lane.
pub const SLOTS_PER_NODE: usize = 1 + LANES;

// The header's place, and what stands there beside its links.
pub const HEADER: u32 = 0;

pub const NODES_IN_USE: usize = 0;

pub const LANE_COUNT: usize = 1;

pub const MARKS_IN_USE: usize = 10;

pub const LANES: usize = 8;

// A field of a band's place. (That of a node place is the same but for the words of a place: one function over that number, `place_word::<8>(..)`, would
// say at each of its calls by a number what these say by their names.)
#[tactic(auto, unfolding(crate::specs::Places::band_field))]
pub fn band_word(bands: &[u32], number: u32, field: usize) -> u32
    requires { field < 8 }
    ensures { result ≡ band_field bands.now number field }
{
    words::word(bands, number as usize * BAND_PLACE_WORDS + field)
}

// A field of a band's place is stored.
#[tactic(auto, unfolding(crate::specs::Places::with_band_field))]
pub(crate) fn put_band_word(bands: &mut [u32], number: u32, field: usize, value: u32)
    requires { field < 8 }
    ensures { bands.new ≡ with_band_field bands.old number field value }
{
    words::put_word(bands, number as usize * BAND_PLACE_WORDS + field, value);
}

// A field of a node place; place 0 is the header's.
#[tactic(auto, unfolding(crate::specs::Places::node_field))]
pub fn node_word(nodes: &[u32], place: u32, field: usize) -> u32
    requires { field < 20 }
    ensures { result ≡ node_field nodes.now place field }
{
    words::word(nodes, place as usize * NODE_PLACE_WORDS + field)
}

// A field of a node place is stored.
#[tactic(auto, unfolding(crate::specs::Places::with_node_field))]
pub fn put_node_word(nodes: &mut [u32], place: u32, field: usize, value: u32)
    requires { field < 20 }
    ensures { nodes.new ≡ with_node_field nodes.old place field value }
{
    words::put_word(nodes, place as usize * NODE_PLACE_WORDS + field, value);
}

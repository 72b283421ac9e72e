// The kinds of the hall: keys and readings, bands and entries, and what the box answers.
#![tactic(auto)]

mod answers;
mod bands;
mod entries;
mod keys;
mod reads;

pub use answers::{Answer, Refusal, number_of};
pub use bands::Band;
pub use entries::Entry;
pub use keys::{Key, Reading};
pub use reads::{BandRead, EdgeRead, NodeRead, RoomRead, StabRead};

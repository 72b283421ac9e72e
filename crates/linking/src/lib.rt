// Which node places belong together: with a band those of its ends, and with a place the next one of each lane. The check tests memory by this, and a
// change is drafted and laid by it.
#![tactic(auto)]

mod ends;
mod links;

pub use ends::{MOST_PLACES, note_ends};
pub use links::{link_due, raise};

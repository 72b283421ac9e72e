// The marks of a memory's bands: walking one band's staircase, counting marks by slot, from counts to starts, and laying each mark in its slot.
#![tactic(auto)]

mod counting;
mod profile;
mod putting;
mod starting;
mod walking;

pub use counting::{MOST_CURSORS, count};
pub use profile::Profile;
pub use putting::lay;
pub use starting::to_starts;

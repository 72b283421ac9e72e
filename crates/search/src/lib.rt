// The stab's search, and finding a node's place, over node and mark words of any memory.
#![tactic(auto)]

mod descent;
mod finding;
mod next;
mod taking;

pub use descent::{Found, search};
pub use finding::place_of;
pub use taking::{Taken, marked};

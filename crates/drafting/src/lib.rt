// A change as it is drafted, beside the lent memory: what stays of the memory's profile, then entries put to it.
#![tactic(auto)]

mod draft;
mod entry_drafting;
mod keeping;
mod node_drafting;

pub use draft::{DRAFT_WORDS, Draft};
pub use entry_drafting::put_entry;
pub use keeping::keep_ends;

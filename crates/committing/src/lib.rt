// A drafted profile committed: 11 judged, its links laid, 12 judged, and then all of it laid into the lent memory.
#![tactic(auto)]

mod completing;
mod fence_laying;
mod laying;
mod link_laying;

pub use laying::{commit, commit_words};

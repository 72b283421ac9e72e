// The desk's answers: what is told of a command, and the line that tells it. Nothing is written out here.
#![tactic(auto)]

mod answers;
mod flagged;
mod refusals;
mod telling;

pub use answers::{NotDone, Told};

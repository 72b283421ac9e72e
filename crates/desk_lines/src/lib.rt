// The desk's lines: from bytes to the command that they say, or to what is wrong with them. A line is all that is seen here.
#![tactic(auto)]

mod commands;
mod faults;
mod keys;
mod lines;
mod numbers;
mod parts;
mod reading;
mod slices;
mod stretches;
mod words;

pub use commands::{Command, NAMES};
pub use faults::Fault;
pub use lines::Line;
pub use slices::Slice;

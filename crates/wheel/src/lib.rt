// The wheel of levels: 1,024 of them, fixed, to be taken one after the other for the ends of new bands.
#![tactic(auto)]

mod levels;
mod places;
mod turning;

pub use places::Place;
pub use turning::{Turned, turn};

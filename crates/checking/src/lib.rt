// The check of a whole profile in lent memory, made of tests of its parts.
#![tactic(auto)]

mod band_places;
mod ends;
mod links;
mod mark_places;
mod node_places;
mod whole_profile;
mod zeros;

pub use whole_profile::check;

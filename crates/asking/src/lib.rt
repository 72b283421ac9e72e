// The calls that only ask: the stab, and the readouts of a band, an edge, a node and the room used. They test sizes and write nothing.
#![tactic(auto)]

mod band_readout;
mod edge_readout;
mod judging;
mod node_readout;
mod room_readout;
mod stabbing;

pub use band_readout::band;
pub use edge_readout::edge;
pub use node_readout::node;
pub use room_readout::room;
pub use stabbing::stab;

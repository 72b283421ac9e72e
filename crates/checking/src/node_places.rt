// The test of the node places, but for links, fences and the count of marks.
#![tactic(auto, using(crate::proofs::Joined::joined), unfolding(crate::specs::NodePlaces::nodes_fit, crate::specs::NodePlaces::header_right, crate::specs::NodePlaces::node_right, crate::specs::NodePlaces::rest_free, crate::specs::NodePlaces::node_places_right, rules::specs::NodesLanesEdges::is_level))]

ghost use Rattle.std.specs.Prelude.{◌≡◌, ◌≤◌};
ghost use Rattle.checking.specs.NodePlaces.{nodes_fit, header_right, node_right, nodes_right, rest_free, node_places_right};

use crate::zeros;

// Whether the nodes in use have their places, and the header its own.
fn nodes_fit(nodes: &[u32]) -> bool
    ensures { result ≡ nodes_fit nodes.now }
{
    let in_use = store::node_word(nodes, store::HEADER, store::NODES_IN_USE);
    (in_use as usize) < nodes.len() / store::NODE_PLACE_WORDS
}

// Whether the header counts 8 lanes and has zeros after the marks in use.
fn header_right(nodes: &[u32]) -> bool
    ensures { result ≡ header_right nodes.now }
{
    store::node_word(nodes, store::HEADER, store::LANE_COUNT) as usize == store::LANES
        && zeros::zeros_between(nodes, store::MARKS_IN_USE + 1, store::NODE_PLACE_WORDS)
}

// Whether a node has a level of 1 to 8 and a key above that of the node before it, if there is one.
fn node_right(nodes: &[u32], place: u32) -> bool
    requires { 1 ≤ place }
    ensures { result ≡ node_right nodes.now place }
{
    let level = store::node_word(nodes, place, store::LEVEL);
    let before = store::node_word(nodes, place - 1, store::KEY);
    let key = store::node_word(nodes, place, store::KEY);
    1 <= level && level as usize <= store::LANES && (place <= 1 || before < key)
}

// Whether all nodes in use are right.
fn nodes_right(nodes: &[u32]) -> bool
    ensures { result ≡ nodes_right nodes.now }
{
    let in_use = store::node_word(nodes, store::HEADER, store::NODES_IN_USE);
    (1..=in_use).all(|place| node_right(nodes, place))
}

// Whether every place past the last in use is free.
fn rest_free(nodes: &[u32]) -> bool
    ensures { result ≡ rest_free nodes.now }
{
    let in_use = store::node_word(nodes, store::HEADER, store::NODES_IN_USE);
    zeros::zeros_between(
        nodes,
        (in_use as usize + 1) * store::NODE_PLACE_WORDS,
        nodes.len(),
    )
}

// Whether the nodes fit, and header, nodes and free places are right. No node is gone through where they do not fit.
pub(crate) fn node_places_right(nodes: &[u32]) -> bool
    ensures { result ≡ node_places_right nodes.now }
{
    nodes_fit(nodes) && header_right(nodes) && nodes_right(nodes) && rest_free(nodes)
}

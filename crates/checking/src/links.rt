// The test of the links: one pass from the last node back to the header, with the first place seen so far in each lane.
ghost use Rattle.std.specs.Prelude.{◌≡◌};
ghost use Rattle.checking.specs.Links.{links_right, links_due};

// Whether the links of a place, in as many lanes as it has, lead to the first places ahead; in other lanes they are 0.
fn links_due(nodes: &[u32], place: u32, level: usize, ahead: &[u32; store::LANES]) -> bool
    ensures { result ≡ links_due nodes.now place level ahead.now }
{
    (0..store::LANES).all(|lane| {
        store::node_word(nodes, place, store::LINKS + lane) == linking::link_due(level, lane, ahead)
    })
}

// Whether the links of the header and of all nodes lead to the next place of each lane.
pub(crate) fn links_right(nodes: &[u32]) -> bool
    ensures { result ≡ links_right nodes.now }
{
    let mut ahead = [0; store::LANES];
    let in_use = store::node_word(nodes, store::HEADER, store::NODES_IN_USE);
    for place in (1..=in_use).rev() {
        let level = store::node_word(nodes, place, store::LEVEL) as usize;
        if !links_due(nodes, place, level, &ahead) {
            return false;
        }
        linking::raise(place, level, &mut ahead);
    }
    links_due(nodes, store::HEADER, store::LANES, &ahead)
}

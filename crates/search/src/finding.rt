// Finding a node's place by its key.
ghost use Rattle.std.specs.Prelude.{◌≡◌, ◌<◌, IfSome};
ghost use Rattle.search.specs.PlaceOf.{places_in_use, place_of, place_said};

use hall::Key;

// The place of the node at the key, where it is found. Nodes stand in key order, so the places in use are halved again and again. By hand, since what is
// found is settled on any memory, and a library's search speaks of ordered slices alone.
pub fn place_of(nodes: &[u32], key: Key) -> Option<u32>
    ensures place { place_said result ≡ place_of nodes.now key.0 }
    ensures node { IfSome result (λ place. 0 < place) }
{
    let in_use = places_in_use(nodes);
    // (usize: the place past the last need not be a u32)
    let mut low = store::HEADER as usize;
    let mut high = in_use as usize + 1;
    while low + 1 < high {
        let mid = (low + high) / 2;
        if store::node_word(nodes, mid as u32, store::KEY) < key.0 {
            low = mid;
        } else {
            high = mid;
        }
    }
    if (in_use as usize) < high {
        return None;
    }
    let place = high as u32;
    if store::node_word(nodes, place, store::KEY) == key.0 {
        Some(place)
    } else {
        None
    }
}

// How many places are in use, by the header's count and as far as there are words.
#[tactic(auto, unfolding(crate::specs::PlaceOf::places_in_use))]
fn places_in_use(nodes: &[u32]) -> u32
    ensures { result ≡ places_in_use nodes.now }
{
    let counted = store::node_word(nodes, store::HEADER, store::NODES_IN_USE);
    let places = nodes.len() / store::NODE_PLACE_WORDS;
    (counted as usize).min(places.saturating_sub(1)) as u32
}

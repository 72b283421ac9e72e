// One band's marks: the walk from its low end to its high end, always along the highest edge that stays inside the band.
ghost use Rattle.std.specs.Prelude.{◌≡◌, ◌+◌, ◌≤◌, ◌<◌, length, take, IfSome};
ghost use Rattle.std.specs.Bool.{then_some};
ghost use Rattle.std.proofs.lemmas.List.Edits.{sets};
ghost use Rattle.rules.specs.NodesLanesEdges.{lanes};
ghost use Rattle.rules.specs.Room.{most_nodes};
ghost use Rattle.hall.specs.SaidBand.{said};
ghost use Rattle.store.specs.Places.{node_field, link_field};
ghost use Rattle.marking.specs.WordWalk.{leads_within, stair_at, stair_to, visited, walked, slots_of};
ghost use Rattle.marking.specs.Stairs.{stair_slot, stair_next};
ghost use Rattle.marking.specs.Staircases.{most_visited};

use crate::profile::Profile;
use hall::{Band, Key};

// The most slots that one walk visits.
pub(crate) const MOST_VISITED: usize = 2 * store::MOST_NODES;

// An edge along which a walk goes on: its lane, and the place that it leads to.
#[derive(Clone, Copy)]
struct Stair {
    lane: usize,
    next: u32,
}

// Where the link leads, if that is a later place in use, whose key is not above the high end.
fn edge_within(nodes: &[u32], here: u32, lane: usize, high: Key) -> Option<u32>
    requires { lane < lanes }
    ensures { result
        ≡ then_some (leads_within nodes.now high.0 here lane) (node_field nodes.now here (link_field lane)) }
{
    let in_use = store::node_word(nodes, store::HEADER, store::NODES_IN_USE);
    let next = store::node_word(nodes, here, store::LINKS + lane);
    let next_key = store::node_word(nodes, next, store::KEY);
    let within = (here < next) & (next <= in_use) & (next_key <= high.0);
    within.then_some(next)
}

// The highest edge that stays inside the band, if there is one.
fn stair_at(nodes: &[u32], here: u32, high: Key) -> Option<Stair>
    ensures slot { stair_slot result ≡ stair_at nodes.now high.0 here }
    ensures next { stair_next result ≡ stair_to nodes.now here (stair_slot result) }
    ensures lane { IfSome result (λ s. s.lane < lanes) }
    ensures later { IfSome result (λ s. here < s.next) }
{
    for lane in (0..store::LANES).rev() {
        if let Some(next) = edge_within(nodes, here, lane, high) {
            return Some(Stair { lane, next });
        }
    }
    None
}

// Writes the slots visited at a place past the first `at`, and answers how many there are then: the node's own where the band holds its key, and the
// stair's where there is one.
// Words and a count, since an `ArrayVec` writes a blank over each of its slots whenever it is cleared for the next band.
fn visit(
    nodes: &[u32],
    band: Band,
    here: u32,
    stair: Option<Stair>,
    slots: &mut [u32; MOST_VISITED],
    at: usize,
) -> usize
    requires { (1 ≤ here) × (here ≤ most_nodes) × (at ≤ most_visited) × (IfSome stair (λ s. s.lane < lanes)) }
    ensures { (slots.new ≡ sets slots.old at (visited nodes.now (said band) here (stair_slot stair)))
        × (result ≡ at + length (visited nodes.now (said band) here (stair_slot stair))) }
{
    let first = (here - 1) * store::SLOTS_PER_NODE as u32;
    let key = Key(store::node_word(nodes, here, store::KEY));
    let mut count = at;
    if band.holds(key) {
        store::put_word(slots, count, first);
        count += 1;
    }
    if let Some(stair) = stair {
        store::put_word(slots, count, first + 1 + stair.lane as u32);
        count += 1;
    }
    count
}

// Writes the slots of one band, and answers how many they are.
fn walk(profile: Profile<'_>, band: Band, slots: &mut [u32; MOST_VISITED]) -> usize
    ensures { (take result slots.new ≡ walked profile.entry.nodes.now (said band)) × (result ≤ most_visited) }
{
    let nodes = profile.nodes;
    let mut count = 0;
    let mut here = search::place_of(nodes, band.low);
    while let Some(place) = here {
        let stair = stair_at(nodes, place, band.high);
        count = visit(nodes, band, place, stair, slots, count);
        here = stair.map(|stair| stair.next);
    }
    count
}

// The slots of the band of a number, written there; none where the number is not live.
pub(crate) fn slots_of<'a>(
    profile: Profile<'_>,
    number: u32,
    slots: &'a mut [u32; MOST_VISITED],
) -> &'a [u32]
    ensures { (result.now ≡ slots_of profile.entry.bands.now profile.entry.nodes.now number)
        × (length result.now ≤ most_visited) }
{
    if !store::is_live(profile.bands, number) {
        return &[];
    }
    let count = walk(profile, store::band_at(profile.bands, number), slots);
    &slots[..count]
}

// The stab's search: down the lanes, in each from node to node.
ghost use Rattle.std.specs.Prelude.{◌≡◌, ◌+◌, ◌≤◌, ◌<◌, ◌^◌, length};
ghost use Rattle.rules.specs.Room.{most_marks};
ghost use Rattle.search.specs.Descent.{taken_at_end, search_of};
ghost use Rattle.search.specs.Found.{with_taken, found_of};

use crate::next;
use crate::taking::Taken;
use hall::Key;

// What a search finds: what it took, how often it looked at a next node, and the place it ended at.
#[derive(Clone, Copy)]
pub struct Found {
    pub taken: Taken,
    pub looks: u32,
    pub place: u32,
}

// The most looks that a sound profile can need: 8, and one for each of 2,048 nodes. It ends the search on any memory.
const MOST_LOOKS: u32 = 2056;

// In each lane the search steps on while the next node is below the key, and takes the edge's marks as it drops if the next is above.
// The inner loop yields the node to drop from; both are left by label where no look is left.
// (That the marks are no more than there can be is asked here and where marks are read: a kind of its own for marks would be unpacked in each of these.)
pub fn search(nodes: &[u32], marks: &[u32], key: Key) -> Found
    requires { length marks.now ≤ most_marks }
    ensures { result ≡ found_of (search_of nodes.now marks.now key.0) }
{
    let mut taken = Taken::nothing();
    let mut looks = 0;
    let mut place = store::HEADER;
    'search: {
        for lane in (0..store::LANES).rev() {
            let mut here = place;
            place = loop {
                if MOST_LOOKS <= looks {
                    place = here;
                    break 'search;
                }
                looks += 1;
                match next::next_in(nodes, here, lane) {
                    Some(next) if next.key < key => here = next.place,
                    Some(next) if key < next.key => {
                        taken.take_slot(nodes, marks, here, 1 + lane);
                        break here;
                    }
                    _ => break here,
                }
            };
        }
        take_at_end(nodes, marks, key, place, &mut taken);
    }
    Found {
        taken,
        looks,
        place,
    }
}

// After lane 0: the marks of the next node itself, if it stands at the key.
fn take_at_end(nodes: &[u32], marks: &[u32], key: Key, place: u32, taken: &mut Taken)
    requires { taken.old.met + length marks.now < 2 ^ 32 }
    ensures { taken.new ≡ with_taken taken.old (taken_at_end nodes.now marks.now key.0 place) }
{
    match next::next_in(nodes, place, 0) {
        Some(next) if next.key == key => taken.take_slot(nodes, marks, next.place, 0),
        _ => {}
    }
}

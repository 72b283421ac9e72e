// The edge readout.
ghost use Rattle.std.specs.Prelude.{◌≡◌};
ghost use Rattle.hall.specs.Says.{key_said, key_says};
ghost use Rattle.store.specs.LentMemory.{words_in};
ghost use Rattle.store.specs.Came.{asked, telling};
ghost use Rattle.asking.specs.EdgeCall.{key_at, edge_in};
ghost use Rattle.asking.specs.Says.{edge_read_says};

use crate::judging::judge_key;
use hall::{EdgeRead, Key, Refusal};
use store::Memory;

// The edge out of the node at a key in a lane.
pub fn edge(memory: Memory<'_>, key: Key, lane: u32) -> Result<EdgeRead, Refusal>
    ensures { asked (edge_read_says result) (words_in memory.exit) ≡ telling (λ m. edge_in m key.0 lane) (words_in memory.entry) }
{
    judge_key(memory, key)?;
    let place = search::place_of(memory.nodes, key).ok_or(Refusal::NoNodeOrLane)?;
    let level = store::node_word(memory.nodes, place, store::LEVEL);
    let lane = lane as usize;
    let has_lane = (lane < store::LANES) & (lane < level as usize);
    if !has_lane {
        return Err(Refusal::NoNodeOrLane);
    }
    let flags = search::marked(memory.nodes, memory.marks, place, 1 + lane).flags;
    Ok(EdgeRead {
        next: key_at(
            memory.nodes,
            store::node_word(memory.nodes, place, store::LINKS + lane),
        ),
        flags,
    })
}

// The key of the node at a place; none at place 0.
#[tactic(auto, unfolding(crate::specs::EdgeCall::key_at))]
fn key_at(nodes: &[u32], place: u32) -> Option<Key>
    ensures { key_said (key_says result) ≡ key_at nodes.now place }
{
    if place == 0 {
        None
    } else {
        Some(Key(store::node_word(nodes, place, store::KEY)))
    }
}

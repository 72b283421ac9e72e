// The node readout.
ghost use Rattle.std.specs.Prelude.{◌≡◌};
ghost use Rattle.store.specs.LentMemory.{words_in};
ghost use Rattle.store.specs.Came.{asked, telling};
ghost use Rattle.asking.specs.NodeCall.{node_in};
ghost use Rattle.asking.specs.Says.{node_read_says};

use crate::judging::judge_key;
use hall::{Key, NodeRead, Refusal};
use store::Memory;

// The node at a key.
pub fn node(memory: Memory<'_>, key: Key) -> Result<NodeRead, Refusal>
    ensures { asked (node_read_says result) (words_in memory.exit) ≡ telling (λ m. node_in m key.0) (words_in memory.entry) }
{
    judge_key(memory, key)?;
    let place = search::place_of(memory.nodes, key).ok_or(Refusal::NoNodeOrLane)?;
    let flags = search::marked(memory.nodes, memory.marks, place, 0).flags;
    Ok(NodeRead {
        level: store::node_word(memory.nodes, place, store::LEVEL),
        flags,
    })
}

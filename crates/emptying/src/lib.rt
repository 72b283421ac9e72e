// A call that changes: making an empty profile in lent memory.
#![tactic(auto)]

ghost use Rattle.std.specs.Prelude.{◌≡◌};
ghost use Rattle.store.specs.LentMemory.{words_in_mut, StillLent};
ghost use Rattle.emptying.specs.EmptyCall.{empty_in};
ghost use Rattle.store.specs.Came.{came};

use hall::{Answer, Refusal};
use store::MemoryMut;

// Whatever the memory held, it is that of the empty profile afterwards; memory of wrong sizes is left as it was.
pub fn empty(memory: &mut MemoryMut<'_>) -> Answer
    ensures empties { came result (words_in_mut memory.new) ≡ empty_in (words_in_mut memory.old) }
    ensures lent { StillLent memory.old memory.new }
{
    if !memory.to_ask().sizes_right() {
        return Err(Refusal::MemoryUnfit);
    }
    store::clear(memory.bands);
    store::clear(memory.nodes);
    store::clear(memory.marks);
    store::put_node_word(
        memory.nodes,
        store::HEADER,
        store::LANE_COUNT,
        store::LANES as u32,
    );
    Ok(())
}

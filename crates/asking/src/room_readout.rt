// The room readout.
ghost use Rattle.std.specs.Prelude.{◌≡◌};
ghost use Rattle.store.specs.LentMemory.{words_in};
ghost use Rattle.store.specs.Came.{asked, telling};
ghost use Rattle.asking.specs.RoomCall.{room_read_in};
ghost use Rattle.asking.specs.Says.{room_read_says};

use hall::{Refusal, RoomRead};
use store::Memory;

// The room used.
pub fn room(memory: Memory<'_>) -> Result<RoomRead, Refusal>
    ensures { asked (room_read_says result) (words_in memory.exit) ≡ telling room_read_in (words_in memory.entry) }
{
    if !memory.sizes_right() {
        return Err(Refusal::MemoryUnfit);
    }
    Ok(RoomRead {
        nodes: store::node_word(memory.nodes, store::HEADER, store::NODES_IN_USE),
        marks: store::node_word(memory.nodes, store::HEADER, store::MARKS_IN_USE),
    })
}

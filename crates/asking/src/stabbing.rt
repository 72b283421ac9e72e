// The stab: which bands hold a key.
ghost use Rattle.std.specs.Prelude.{◌≡◌};
ghost use Rattle.store.specs.LentMemory.{words_in};
ghost use Rattle.store.specs.Came.{asked, telling};
ghost use Rattle.asking.specs.StabCall.{stab_in};
ghost use Rattle.asking.specs.Says.{stab_says};

use crate::judging::judge_key;
use hall::{Key, Refusal, StabRead};
use store::Memory;

// Of the bands only the length is looked at: what is marked is what stands among nodes and marks.
pub fn stab(memory: Memory<'_>, key: Key) -> Result<StabRead, Refusal>
    ensures { asked (stab_says result) (words_in memory.exit) ≡ telling (λ m. stab_in m key.0) (words_in memory.entry) }
{
    judge_key(memory, key)?;
    let found = search::search(memory.nodes, memory.marks, key);
    let taken = found.taken;
    Ok(StabRead {
        flags: taken.flags,
        count: flags::count(&taken.flags),
        met: taken.met,
        looks: found.looks,
    })
}

// What is judged before a key is looked for.
ghost use Rattle.std.specs.Prelude.{◌≡◌};
ghost use Rattle.rules.specs.BoxSaysNo.{stab_refusal};
ghost use Rattle.hall.specs.Says.{answer_says};
ghost use Rattle.store.specs.Sizes.{sizes_right};
ghost use Rattle.store.specs.Memory.{lengths_in};
ghost use Rattle.store.specs.LentMemory.{words_in};

use hall::{Answer, Key, Refusal};
use store::Memory;

// 1 (sizes), then 4. Of the bands only the length is looked at.
#[tactic(auto, unfolding(rules::specs::BoxSaysNo::stab_refusal, rules::specs::BoxSaysNo::key_fault))]
pub(crate) fn judge_key(memory: Memory<'_>, key: Key) -> Answer
    ensures { answer_says result ≡ stab_refusal (sizes_right (lengths_in (words_in memory.entry))) key.0 }
{
    if !memory.sizes_right() {
        return Err(Refusal::MemoryUnfit);
    }
    key.fault()
}

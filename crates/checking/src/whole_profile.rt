// The check of a whole profile, in four steps: sizes; band and node places; ends and links; fences and marks. A step is made only where those
// before it have passed. That the steps together are `sound` is proved (proofs/TestedIsSound.antt).
ghost use Rattle.std.specs.Prelude.{◌≡◌};
ghost use Rattle.store.specs.LentMemory.{words_in};
ghost use Rattle.store.specs.Came.{asked, telling};
ghost use Rattle.store.specs.Sound.{sound};

use crate::{band_places, ends, links, mark_places, node_places};
use marking::Profile;
use store::Memory;

// Yes exactly when the memory is sound. Memory of wrong sizes is not.
// No large array stands in its frame: LLVM would set the frame up behind the first test, and lose there a register that it still needs.
pub fn check(memory: Memory<'_>) -> bool
    ensures { asked result (words_in memory.exit) ≡ telling sound (words_in memory.entry) }
{
    let Memory {
        bands,
        nodes,
        marks,
    } = memory;
    memory.sizes_right()
        && (band_places::band_places_right(bands) && node_places::node_places_right(nodes))
        && {
            let profile = Profile { bands, nodes };
            (ends::ends_match(profile) && links::links_right(nodes))
                && mark_places::marks_right(profile, marks)
        }
}

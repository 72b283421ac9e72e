// A drafted profile judged, and laid into the lent memory where 11 and 12 are not given.
ghost use Rattle.std.specs.Prelude.{◌≡◌, true, length, replicate};
ghost use Rattle.rules.specs.Profile.{Profile};
ghost use Rattle.rules.specs.SoundMemory.{sound_in};
ghost use Rattle.store.specs.Sizes.{sizes_right};
ghost use Rattle.store.specs.Memory.{lengths_in, room_in};
ghost use Rattle.store.specs.LentMemory.{words_in_mut, StillLent};
ghost use Rattle.store.specs.SaidProfile.{said_bands, said_by};
ghost use Rattle.store.specs.LaidBands.{laid_bands};
ghost use Rattle.store.specs.LaidNodes.{laid_nodes};
ghost use Rattle.store.specs.LaidMemory.{laid_memory};
ghost use Rattle.store.specs.Came.{came};
ghost use Rattle.drafting.specs.NodeDraft.{draft_words};
ghost use Rattle.drafting.specs.Drafts.{Drafts};
ghost use Rattle.committing.specs.Committed.{committed, starts_by};

use crate::completing;
use drafting::Draft;
use hall::Answer;
use store::MemoryMut;

// Lays a completed draft into the memory, and its marks from these starts on.
fn lay_draft(
    draft_bands: &[u32],
    draft_nodes: &[u32],
    starts: &mut [u32; marking::MOST_CURSORS],
    memory: &mut MemoryMut<'_>,
)
    requires { (sizes_right (lengths_in (words_in_mut memory.old)) ≡ true)
        × (sound_in (room_in (words_in_mut memory.old)) (said_by draft_bands.now draft_nodes.now) ≡ true)
        × (draft_bands.now ≡ laid_bands (said_bands draft_bands.now))
        × (draft_nodes.now ≡ laid_nodes draft_words (said_by draft_bands.now draft_nodes.now))
        × (starts.old ≡ starts_by (replicate (length starts.old) 0) draft_bands.now draft_nodes.now) }
    ensures laid { words_in_mut memory.new
        ≡ laid_memory (room_in (words_in_mut memory.old)) (said_by draft_bands.now draft_nodes.now) }
    ensures lent { StillLent memory.old memory.new }
{
    store::copy(draft_bands, memory.bands);
    store::copy(draft_nodes, memory.nodes);
    store::clear(memory.marks);
    let profile = marking::Profile {
        bands: draft_bands,
        nodes: draft_nodes,
    };
    marking::lay(profile, starts, memory.marks);
}

// Judges the profile that is drafted by 11 and 12, and lays it where neither is given; refused, the memory is as it was: no word of it is written
// before 11 and 12 are judged, since `complete` is lent none of it. The draft's words come apart, those of bands by `&`.
pub fn commit_words(
    draft_bands: &[u32],
    draft_nodes: &mut [u32],
    memory: &mut MemoryMut<'_>,
) -> Answer
    requires { (sizes_right (lengths_in (words_in_mut memory.old)) ≡ true)
        × ((p : Profile) × Drafts p draft_bands.now draft_nodes.old) }
    ensures commits { (p : Profile) → Drafts p draft_bands.now draft_nodes.old
        → came result (words_in_mut memory.new) ≡ committed (words_in_mut memory.old) p }
    ensures lent { StillLent memory.old memory.new }
{
    let mut cursors = [0u32; marking::MOST_CURSORS];
    let node_room = memory.nodes.len() / store::NODE_PLACE_WORDS - 1;
    let mark_room = memory.marks.len();
    completing::complete(draft_bands, draft_nodes, node_room, mark_room, &mut cursors)?;
    lay_draft(draft_bands, draft_nodes, &mut cursors, memory);
    Ok(())
}

// The same of a draft that is one value.
pub fn commit(draft: &mut Draft, memory: &mut MemoryMut<'_>) -> Answer
    requires { (sizes_right (lengths_in (words_in_mut memory.old)) ≡ true)
        × ((p : Profile) × Drafts p draft.old.bands draft.old.nodes) }
    ensures commits { (p : Profile) → Drafts p draft.old.bands draft.old.nodes
        → came result (words_in_mut memory.new) ≡ committed (words_in_mut memory.old) p }
    ensures bands { draft.new.bands ≡ draft.old.bands }
    ensures lent { StillLent memory.old memory.new }
{
    commit_words(&draft.bands, &mut draft.nodes, memory)
}

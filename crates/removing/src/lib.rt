// A call that changes: removing a band.
#![tactic(auto)]

ghost use Rattle.std.specs.Prelude.{◌≡◌, true, replicate, ◌*◌, ◌<◌};
ghost use Rattle.rules.specs.Changes.{removed};
ghost use Rattle.hall.specs.Says.{answer_says};
ghost use Rattle.store.specs.Sizes.{band_places, band_place_words};
ghost use Rattle.store.specs.SaidProfile.{said_profile};
ghost use Rattle.store.specs.Sound.{sound};
ghost use Rattle.drafting.specs.NodeDraft.{draft_words};
ghost use Rattle.drafting.specs.Drafts.{Drafts};
ghost use Rattle.store.specs.LentMemory.{words_in, words_in_mut, StillLent};
ghost use Rattle.removing.specs.RemoveCall.{remove_in, remove_judged};
ghost use Rattle.store.specs.Came.{came};

use drafting::Draft;
use hall::{Answer, Band, Refusal};
use store::{Memory, MemoryMut};

// Ends the band of a number, and drops each node at which no band ends any more. All of memory is checked first; 12 is judged on a draft, so that a
// refused remove leaves every word as it was.
pub fn remove(memory: &mut MemoryMut<'_>, number: u32, scope: u32) -> Answer
    ensures removes { came result (words_in_mut memory.new) ≡ remove_in (words_in_mut memory.old) number scope }
    ensures lent { StillLent memory.old memory.new }
{
    judge(memory.to_ask(), number, scope)?;
    remove_judged(memory, number, scope)
}

// Judges 1, 2, 3, 9 and 10, which need no draft.
fn judge(memory: Memory<'_>, number: u32, scope: u32) -> Answer
    ensures { answer_says result ≡ remove_judged (words_in memory.entry) number scope }
{
    if !checking::check(memory) {
        return Err(Refusal::MemoryUnfit);
    }
    if Band::HOUSE < scope {
        return Err(Refusal::ScopeAbove);
    }
    if Band::HIGHEST_NUMBER < number {
        return Err(Refusal::NumberAbove);
    }
    if !store::is_live(memory.bands, number) {
        return Err(Refusal::NumberNotLive);
    }
    if store::band_at(memory.bands, number).scope != scope {
        return Err(Refusal::ScopeOther);
    }
    Ok(())
}

// The rest of a remove that 1, 2, 3, 9 and 10 do not refuse, with words to draft in. (Why an insert has a function of its own for that: there.)
fn remove_judged(memory: &mut MemoryMut<'_>, number: u32, scope: u32) -> Answer
    requires { remove_judged (words_in_mut memory.old) number scope ≡ 0 }
    ensures removes { came result (words_in_mut memory.new) ≡ remove_in (words_in_mut memory.old) number scope }
    ensures lent { StillLent memory.old memory.new }
{
    let mut drafted = Draft {
        bands: [0; store::BAND_WORDS],
        nodes: [0; drafting::DRAFT_WORDS],
    };
    draft(memory.to_ask(), number, &mut drafted);
    committing::commit(&mut drafted, memory)
}

// The bands that are left, then the nodes at their ends.
fn draft(memory: Memory<'_>, number: u32, into: &mut Draft)
    requires { (sound (words_in memory) ≡ true)
        × (number < band_places)
        × (into.old.bands ≡ replicate (band_places * band_place_words) 0)
        × (into.old.nodes ≡ replicate draft_words 0) }
    ensures { Drafts (removed (said_profile (words_in memory.entry)) number) into.new.bands into.new.nodes }
{
    store::copy(memory.bands, &mut into.bands);
    store::drop_band(&mut into.bands, number);
    into.keep_ends(memory.nodes);
}

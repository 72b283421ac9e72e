// A call that changes: inserting a band.
#![tactic(auto)]

ghost use Rattle.std.specs.Prelude.{◌≡◌, replicate, ◌*◌};
ghost use Rattle.rules.specs.Changes.{inserted};
ghost use Rattle.hall.specs.Says.{answer_says};
ghost use Rattle.hall.specs.SaidBand.{said};
ghost use Rattle.store.specs.Sizes.{band_places, band_place_words};
ghost use Rattle.store.specs.SaidProfile.{said_profile};
ghost use Rattle.drafting.specs.NodeDraft.{draft_words};
ghost use Rattle.drafting.specs.Drafts.{Drafts};
ghost use Rattle.store.specs.LentMemory.{words_in, words_in_mut, StillLent};
ghost use Rattle.inserting.specs.InsertCall.{insert_in, insert_judged};
ghost use Rattle.store.specs.Came.{came};

use drafting::Draft;
use hall::{Answer, Entry, Refusal};
use store::{Memory, MemoryMut};

// Makes a band live, with nodes at its ends of the levels given where none stands there. All of memory is checked first; 11 and 12 are judged on a
// draft, so that a refused insert leaves every word as it was.
pub fn insert(memory: &mut MemoryMut<'_>, entry: Entry) -> Answer
    ensures inserts { came result (words_in_mut memory.new)
        ≡ insert_in (words_in_mut memory.old) (said entry.band) entry.low_level entry.high_level }
    ensures lent { StillLent memory.old memory.new }
{
    judge(memory.to_ask(), entry)?;
    insert_judged(memory, entry)
}

// Judges 1 to 8, which need no draft.
fn judge(memory: Memory<'_>, entry: Entry) -> Answer
    ensures { answer_says result
        ≡ insert_judged (words_in memory.entry) (said entry.band) entry.low_level entry.high_level }
{
    if !checking::check(memory) {
        return Err(Refusal::MemoryUnfit);
    }
    entry.fault()?;
    if store::is_live(memory.bands, entry.band.number) {
        return Err(Refusal::NumberLive);
    }
    Ok(())
}

// The rest of an insert that 1 to 8 do not refuse, with words to draft in. Insert and remove share no helper for that: how each drafts would be a
// closure, with a contract longer than its calls.
fn insert_judged(memory: &mut MemoryMut<'_>, entry: Entry) -> Answer
    requires { insert_judged (words_in_mut memory.old) (said entry.band) entry.low_level entry.high_level ≡ 0 }
    ensures inserts { came result (words_in_mut memory.new)
        ≡ insert_in (words_in_mut memory.old) (said entry.band) entry.low_level entry.high_level }
    ensures lent { StillLent memory.old memory.new }
{
    let mut drafted = Draft {
        bands: [0; store::BAND_WORDS],
        nodes: [0; drafting::DRAFT_WORDS],
    };
    draft(memory.to_ask(), entry, &mut drafted);
    committing::commit(&mut drafted, memory)
}

// What stands, then the entry put to it.
fn draft(memory: Memory<'_>, entry: Entry, into: &mut Draft)
    requires { (insert_judged
        (words_in memory)
        (said entry.band)
        entry.low_level
        entry.high_level ≡ 0)
        × (into.old.bands ≡ replicate (band_places * band_place_words) 0)
        × (into.old.nodes ≡ replicate draft_words 0) }
    ensures { Drafts
        (inserted (said_profile (words_in memory.entry)) (said entry.band) entry.low_level entry.high_level)
        into.new.bands
        into.new.nodes }
{
    store::copy(memory.bands, &mut into.bands);
    into.keep_ends(memory.nodes);
    into.put_entry(entry);
}

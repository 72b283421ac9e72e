// One pass over the card, record by record: which numbers are seen, and which are held, as long as nothing is wrong.
ghost use Rattle.std.specs.Prelude.{◌≡◌};
ghost use Rattle.hall.specs.Says.{answer_says};
ghost use Rattle.hall.specs.SaidBand.{said};
ghost use Rattle.card.specs.Pass.{begin_of, judge_of, entered_of, step_of, told_of};
ghost use Rattle.card.specs.Says.{pass_says, scan_says};

use hall::{Answer, Band, Key, Refusal};

// The flags and the count of the records that hold the key.
#[derive(Clone, Copy, Debug, PartialEq, Eq)]
pub struct Held {
    pub flags: [u64; 16],
    pub count: u32,
}

// The first thing wrong and its place: that of a record, counted from 1, or 0 for the key.
#[derive(Clone, Copy, Debug, PartialEq, Eq)]
pub struct Wrong {
    pub refusal: Refusal,
    pub place: usize,
}

// A pass so far: the numbers seen, and those of the records that hold the key.
#[derive(Clone, Copy)]
pub(crate) struct Pass {
    seen: [u64; 16],
    flags: [u64; 16],
}

impl Pass {
    // The key is judged before the records.
    #[tactic(auto, unfolding(crate::specs::Pass::begin_of))]
    pub(crate) fn begin(key: Key) -> Result<Pass, Wrong>
        ensures { pass_says result ≡ begin_of key.0 }
    {
        key.fault().map_err(|refusal| Wrong { refusal, place: 0 })?;
        Ok(Pass {
            seen: [0; 16],
            flags: [0; 16],
        })
    }

    // Judges the record at a place and enters it, or tells what is wrong with it.
    #[tactic(auto, unfolding(crate::specs::Pass::step_of))]
    pub(crate) fn step(self, place: usize, band: Band, key: Key) -> Result<Pass, Wrong>
        ensures { pass_says result ≡ step_of (pass_says (Ok self)) place (said band) key.0 }
    {
        self.judge(band)
            .map_err(|refusal| Wrong { refusal, place })?;
        Ok(self.enter(band, key))
    }

    // What the card answers after this pass.
    pub(crate) fn told(self) -> Held
        ensures { scan_says (Ok result) ≡ told_of (pass_says (Ok self)) }
    {
        let flags = self.flags;
        Held {
            flags,
            count: flags::count(&flags),
        }
    }

    // Judges a record by 2 to 6, then by 8: the later of two with one number is told.
    #[tactic(auto, unfolding(crate::specs::Pass::judge_of))]
    fn judge(&self, band: Band) -> Answer
        ensures { answer_says result ≡ judge_of self.now.seen (said band) }
    {
        band.fault()?;
        if flags::is_set(&self.seen, band.number) {
            Err(Refusal::NumberLive)
        } else {
            Ok(())
        }
    }

    // A right record's number is seen, and held where the record holds the key.
    #[tactic(auto, unfolding(crate::specs::Pass::entered_of))]
    fn enter(mut self, band: Band, key: Key) -> Pass
        ensures { pass_says (Ok result) ≡ entered_of (pass_says (Ok self)) (said band) key.0 }
    {
        flags::set(&mut self.seen, band.number);
        if band.holds(key) {
            flags::set(&mut self.flags, band.number);
        }
        self
    }
}

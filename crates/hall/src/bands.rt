// Bands: which keys one holds, and what is wrong with one by itself.
// Tests are joined by `&` and `|`, which do not branch: such a function has one answer to prove.
ghost use Rattle.std.specs.Prelude.{◌≡◌, ◌≤◌};
ghost use Rattle.rules.specs.HallLine.{highest_key, holds, first_past, holds_whole_key, within_scope};
ghost use Rattle.rules.specs.BoxSaysNo.{band_fault};
ghost use Rattle.hall.specs.Says.{answer_says};
ghost use Rattle.hall.specs.SaidBand.{said};

use crate::answers::{Answer, Refusal};
use crate::keys::Key;

// A band, as given: any numbers can stand here, and `fault` judges them.
#[derive(Clone, Copy, Debug, PartialEq, Eq)]
pub struct Band {
    pub number: u32,
    pub scope: u32,
    pub low: Key,
    pub high: Key,
    pub low_closed: bool,
    pub high_closed: bool,
}

impl Band {
    pub const HIGHEST_NUMBER: u32 = 1023;

    // The scope of a house band; a scope below it is a machine.
    pub const HOUSE: u32 = 64;

    // Whether the key lies between the ends. An end itself counts where it is closed.
    pub fn holds(self, key: Key) -> bool
        ensures { result ≡ holds (said self) key.0 }
    {
        let past_low = (self.low < key) | ((key == self.low) & self.low_closed);
        let before_high = (key < self.high) | ((key == self.high) & self.high_closed);
        past_low & before_high
    }

    // The first of 2 to 6 that applies to the band by itself.
    pub fn fault(self) -> Answer
        ensures { answer_says result ≡ band_fault (said self) }
    {
        if Band::HOUSE < self.scope {
            return Err(Refusal::ScopeAbove);
        }
        if Band::HIGHEST_NUMBER < self.number {
            return Err(Refusal::NumberAbove);
        }
        if Key::HIGHEST < self.low {
            return Err(Refusal::KeyAbove);
        }
        if Key::HIGHEST < self.high {
            return Err(Refusal::KeyAbove);
        }
        if !self.holds_whole_key() {
            return Err(Refusal::HoldsNoKey);
        }
        if !self.within_scope() {
            return Err(Refusal::EndElsewhere);
        }
        Ok(())
    }

    // The first whole key past the low end.
    fn first_past(self) -> Key
        requires { self.low.0 ≤ highest_key }
        ensures { result.0 ≡ first_past (said self) }
    {
        if self.low_closed {
            self.low
        } else {
            Key(self.low.0 + 1)
        }
    }

    // Whether the band holds a whole key: if it holds any, it holds the first past its low end.
    fn holds_whole_key(self) -> bool
        requires { self.low.0 ≤ highest_key }
        ensures { result ≡ holds_whole_key (said self) }
    {
        self.holds(self.first_past())
    }

    // Whether both written ends are among the machine's own keys, where the scope is a machine.
    fn within_scope(self) -> bool
        ensures { result ≡ within_scope (said self) }
    {
        let both_own = self.low.belongs_to(self.scope) & self.high.belongs_to(self.scope);
        !(self.scope < Band::HOUSE) | both_own
    }
}

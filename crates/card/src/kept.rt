// The records of a card: bands, or words, six to a record.
ghost use Rattle.std.specs.Prelude.{◌≡◌};
ghost use Rattle.rules.specs.HallLine.{Band as RuledBand};
ghost use Rattle.hall.specs.SaidBand.{said};
ghost use Rattle.card.specs.Records.{record_of};

use hall::{Band, Key};

pub const RECORD_WORDS: usize = 6;

// What a card's record is kept as.
pub(crate) trait Record: Copy {
    ghost says: { Self → RuledBand };

    fn band(self) -> Band
        ensures { said result ≡ says self };
}

impl Record for Band {
    ghost says = { said };

    fn band(self) -> Band {
        self
    }
}

// Number, scope, low, high, low closed, high closed. An end is open where its word is 0, else closed.
impl Record for [u32; RECORD_WORDS] {
    ghost says = { record_of };

    #[tactic(auto, unfolding(crate::specs::Records::record_at))]
    fn band(self) -> Band {
        let [number, scope, low, high, low_closed, high_closed] = self;
        Band {
            number,
            scope,
            low: Key(low),
            high: Key(high),
            low_closed: low_closed != 0,
            high_closed: high_closed != 0,
        }
    }
}

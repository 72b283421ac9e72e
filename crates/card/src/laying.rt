// Laying records among words.
ghost use Rattle.std.specs.Prelude.{◌≡◌};
ghost use Rattle.hall.specs.SaidBand.{said};
ghost use Rattle.card.specs.Records.{with_record};

use crate::kept::RECORD_WORDS;
use hall::Band;

// The most records that a card needs room for. They are more than there are numbers, so of so many one is bad, and those after it play no part.
pub const MOST_RECORDS: usize = 1100;

// Writes a record at an index; past the last whole place nothing changes.
pub fn lay_record(words: &mut [u32], at: usize, band: Band)
    ensures { words.new ≡ with_record words.old at (said band) }
{
    // By the index of its first word: of `as_chunks_mut` std does not say what the slice ends as, so over chunks this promise was not proved.
    if at < words.len() / RECORD_WORDS {
        let first = at * RECORD_WORDS;
        words[first..first + RECORD_WORDS].copy_from_slice(&[
            band.number,
            band.scope,
            band.low.0,
            band.high.0,
            u32::from(band.low_closed),
            u32::from(band.high_closed),
        ]);
    }
}

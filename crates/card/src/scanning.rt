// The scan of a card, whatever its records are kept as.
ghost use Rattle.std.specs.Prelude.{◌≡◌, map};
ghost use Rattle.rules.specs.BenchCard.{scan_of};
ghost use Rattle.card.specs.Says.{scan_says};
ghost use Rattle.card.specs.Records.{bands_of, records_in};

use crate::kept::{RECORD_WORDS, Record};
use crate::pass::{Held, Pass, Wrong};
use hall::{Band, Key};

// Scans the records for a key: the numbers of the records that hold it, or the first thing wrong and its place.
pub fn scan(cards: &[Band], key: Key) -> Result<Held, Wrong>
    ensures { (scan_says result ≡ scan_of (bands_of cards.entry.now) key.0)
        × (cards.exit.now ≡ cards.entry.now) }
{
    scan_records(cards, key)
}

// The same over words, six to a record. Words past the last whole record play no part.
#[tactic(auto, using(crate::proofs::Records::records_of_chunks))]
pub fn scan_words(words: &[u32], key: Key) -> Result<Held, Wrong>
    ensures { (scan_says result ≡ scan_of (records_in words.entry.now) key.0)
        × (words.exit.now ≡ words.entry.now) }
{
    let (records, _) = words.as_chunks::<RECORD_WORDS>();
    scan_records(records, key)
}

fn scan_records<R: Record>(records: &[R], key: Key) -> Result<Held, Wrong>
    ensures { scan_says result ≡ scan_of (map R.says records.now) key.0 }
{
    let mut pass = Pass::begin(key)?;
    for (index, &record) in records.iter().enumerate() {
        pass = pass.step(index + 1, record.band(), key)?;
    }
    Ok(pass.told())
}

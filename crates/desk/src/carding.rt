// The bench card: a list of records that the desk keeps beside the memory. No record is judged before a scan.
ghost use Rattle.std.specs.Prelude.{◌≤◌};
ghost use Rattle.card.specs.declared.laying.TheConstants.{MOST_RECORDS};

use card::{Held, MOST_RECORDS, RECORD_WORDS, Wrong};
use desk_lines::Fault;
use hall::{Band, Key};

const CARD_WORDS: usize = RECORD_WORDS * MOST_RECORDS;

// The records, in an array since the desk has no heap, and how many they are. They could stand there as bands; as words they try the card's form over
// words.
#[derive(Drop)]
pub(crate) struct Card {
    words: [u32; CARD_WORDS],
    count: usize,
    ghost within: { count ≤ MOST_RECORDS },
}

impl Card {
    pub(crate) fn new() -> Card {
        Card {
            words: [0; CARD_WORDS],
            count: 0,
        }
    }

    pub(crate) fn clear(&mut self) {
        self.count = 0;
    }

    pub(crate) fn add(&mut self, band: Band) -> Result<(), Fault> {
        if self.count == MOST_RECORDS {
            return Err(Fault::CardFull);
        }
        card::lay_record(&mut self.words, self.count, band);
        self.count += 1;
        Ok(())
    }

    pub(crate) fn scan(&self, key: Key) -> Result<Held, Wrong> {
        card::scan_words(&self.words[..self.count * RECORD_WORDS], key)
    }
}

// The bench card: a plain scan over band records for one key.
#![tactic(auto)]

mod kept;
mod laying;
mod pass;
mod scanning;

pub use kept::RECORD_WORDS;
pub use laying::{MOST_RECORDS, lay_record};
pub use pass::{Held, Wrong};
pub use scanning::{scan, scan_words};

// Stretches as they are written: two keys in brackets. A square bracket closes its end, a round one leaves it open.
use crate::faults::Fault;
use crate::parts;
use crate::words::FromWord;
use hall::Key;

#[derive(Clone, Copy, Debug)]
pub(crate) struct Stretch {
    pub(crate) low: Key,
    pub(crate) high: Key,
    pub(crate) low_closed: bool,
    pub(crate) high_closed: bool,
}

impl FromWord for Stretch {
    fn from_word(word: &[u8]) -> Result<Stretch, Fault> {
        let [
            low_bracket @ (b'[' | b'('),
            ends @ ..,
            high_bracket @ (b']' | b')'),
        ] = word
        else {
            return Err(Fault::NotAStretch);
        };
        let (low, high) = parts::split_once(ends, b',').ok_or(Fault::NotAStretch)?;
        Ok(Stretch {
            low: Key::from_word(low)?,
            high: Key::from_word(high)?,
            low_closed: *low_bracket == b'[',
            high_closed: *high_bracket == b']',
        })
    }
}

// Keys as they are written: a number, or machine, sensor and reading with colons between.
use crate::faults::Fault;
use crate::parts;
use crate::words::FromWord;
use hall::{Key, Reading};

impl FromWord for Key {
    fn from_word(word: &[u8]) -> Result<Key, Fault> {
        let Some((machine, rest)) = parts::split_once(word, b':') else {
            return number(word).map(Key);
        };
        let (sensor, reading) = parts::split_once(rest, b':').ok_or(Fault::NotAKey)?;
        of_parts(part(machine)?, part(sensor)?, part(reading)?).ok_or(Fault::NoSuchKey)
    }
}

// A number that is a key or stands in one: a word of another form is no key.
fn number(word: &[u8]) -> Result<u32, Fault> {
    u32::from_word(word).map_err(|fault| match fault {
        Fault::NotANumber => Fault::NotAKey,
        other => other,
    })
}

// None for a part that is too high to be a number: it is out of its range like any other.
fn part(word: &[u8]) -> Result<Option<u32>, Fault> {
    match number(word) {
        Ok(part) => Ok(Some(part)),
        Err(Fault::NumberAbove) => Ok(None),
        Err(fault) => Err(fault),
    }
}

// None where a part is out of its range.
fn of_parts(machine: Option<u32>, sensor: Option<u32>, reading: Option<u32>) -> Option<Key> {
    let counts = u16::try_from(reading?).ok()?;
    Key::of(machine?, sensor?, Reading(counts))
}

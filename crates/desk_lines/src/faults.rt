// What can be wrong with a line, and with what it asks of the desk: by cases, and as it is told.
use std::fmt;
use std::fmt::Display;

#[derive(Clone, Copy, Debug, PartialEq, Eq)]
pub enum Fault {
    LineTooLong,
    NoSuchCommand,
    WordMissing,
    NotANumber,
    NumberAbove,
    NotASlice,
    NotAKey,
    NoSuchKey,
    NotAStretch,
    TooManyWords,
    // The desk alone knows of these.
    NoSuchMemory,
    NoSuchWord,
    CardFull,
}

impl Display for Fault {
    fn fmt<W: fmt::Write>(&self, f: &mut fmt::Formatter<W>) -> fmt::Result {
        f.write_str(match self {
            Fault::LineTooLong => "line too long",
            Fault::NoSuchCommand => "no such command",
            Fault::WordMissing => "word missing",
            Fault::NotANumber => "not a number",
            Fault::NumberAbove => "number above 4294967295",
            Fault::NotASlice => "not a slice",
            Fault::NotAKey => "not a key",
            Fault::NoSuchKey => "no such key",
            Fault::NotAStretch => "not a stretch",
            Fault::TooManyWords => "too many words",
            Fault::NoSuchMemory => "no such memory",
            Fault::NoSuchWord => "no such word",
            Fault::CardFull => "card full",
        })
    }
}

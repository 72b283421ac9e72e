// From the words of a line to the command that they say.
use crate::commands::Command;
use crate::faults::Fault;
use crate::stretches::Stretch;
use crate::words::Words;
use hall::{Band, Entry};

// None where there is no word, or the first begins a remark.
pub(crate) fn read(mut words: Words<'_>) -> Result<Option<Command>, Fault> {
    let Some(name) = words.next() else {
        return Ok(None);
    };
    if name.starts_with(b"#") {
        return Ok(None);
    }
    let command = named(name, &mut words)?;
    match words.next() {
        None => Ok(Some(command)),
        Some(_) => Err(Fault::TooManyWords),
    }
}

// The command of this name, with the words that it takes.
fn named(name: &[u8], words: &mut Words<'_>) -> Result<Command, Fault> {
    Ok(match name {
        b"empty" => Command::Empty,
        b"insert" => Command::Insert(entry(words)?),
        b"remove" => Command::Remove {
            number: words.read()?,
            scope: words.read()?,
        },
        b"stab" => Command::Stab(words.read()?),
        b"check" => Command::Check,
        b"band" => Command::Band {
            number: words.read()?,
        },
        b"edge" => Command::Edge {
            key: words.read()?,
            lane: words.read()?,
        },
        b"node" => Command::Node(words.read()?),
        b"room" => Command::Room,
        b"wheel" => Command::Wheel {
            place: words.read()?,
        },
        b"card" => card(words)?,
        b"help" => Command::Help,
        _ => return on_words(name, words),
    })
}

// A command that lends words, or takes the lent ones as words.
fn on_words(name: &[u8], words: &mut Words<'_>) -> Result<Command, Fault> {
    Ok(match name {
        b"memory" => Command::Memory {
            nodes: words.read()?,
            marks: words.read()?,
        },
        b"lengths" => Command::Lengths {
            bands: words.read()?,
            nodes: words.read()?,
            marks: words.read()?,
        },
        b"fill" => Command::Fill {
            word: words.read()?,
        },
        b"poke" => Command::Poke {
            slice: words.read()?,
            index: words.read()?,
            word: words.read()?,
        },
        b"peek" => Command::Peek {
            slice: words.read()?,
            index: words.read()?,
        },
        b"sum" => Command::Sum,
        _ => return Err(Fault::NoSuchCommand),
    })
}

// A command of the bench card, by its second name.
fn card(words: &mut Words<'_>) -> Result<Command, Fault> {
    match words.next() {
        Some(b"clear") => Ok(Command::CardClear),
        Some(b"add") => Ok(Command::CardAdd(band(words)?)),
        Some(b"scan") => Ok(Command::CardScan(words.read()?)),
        Some(_) => Err(Fault::NoSuchCommand),
        None => Err(Fault::WordMissing),
    }
}

fn band(words: &mut Words<'_>) -> Result<Band, Fault> {
    let number = words.read()?;
    let scope = words.read()?;
    let Stretch {
        low,
        high,
        low_closed,
        high_closed,
    } = words.read()?;
    Ok(Band {
        number,
        scope,
        low,
        high,
        low_closed,
        high_closed,
    })
}

fn entry(words: &mut Words<'_>) -> Result<Entry, Fault> {
    Ok(Entry {
        band: band(words)?,
        low_level: words.read()?,
        high_level: words.read()?,
    })
}

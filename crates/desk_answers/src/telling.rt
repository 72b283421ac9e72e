// The line that tells an answer, without its end.
use crate::answers::{NotDone, Told};
use crate::flagged::Flagged;
use crate::refusals::words_of;
use hall::{BandRead, EdgeRead, StabRead};
use std::fmt;
use std::fmt::{Display, Formatter};

impl Display for Told {
    fn fmt<W: fmt::Write>(&self, f: &mut Formatter<W>) -> fmt::Result {
        match self {
            Told::Done => write!(f, "0"),
            Told::Help => write!(f, "0 {}", desk_lines::NAMES),
            Told::Number(number) => write!(f, "0 {number}"),
            Told::Checked(true) => write!(f, "yes"),
            Told::Checked(false) => write!(f, "no"),
            Told::Stab(read) => tell_stab(read, f),
            Told::Band(read) => tell_band(read, f),
            Told::Edge(read) => tell_edge(read, f),
            Told::Node(read) => write!(f, "0 level {} bands{}", read.level, Flagged(&read.flags)),
            Told::Room(read) => write!(f, "0 nodes {} marks {}", read.nodes, read.marks),
            Told::Turn(turned) => write!(f, "0 level {} next {}", turned.level, turned.next.0),
            Told::Scan(held) => write!(
                f,
                "0 place 0 count {} bands{}",
                held.count,
                Flagged(&held.flags)
            ),
        }
    }
}

fn tell_stab<W: fmt::Write>(read: &StabRead, f: &mut Formatter<W>) -> fmt::Result {
    write!(
        f,
        "0 count {} met {} looks {} bands{}",
        read.count,
        read.met,
        read.looks,
        Flagged(&read.flags)
    )
}

// A closed end has a square bracket, an open one a round one.
fn tell_band<W: fmt::Write>(read: &BandRead, f: &mut Formatter<W>) -> fmt::Result {
    let low_bracket = if read.low_closed { '[' } else { '(' };
    let high_bracket = if read.high_closed { ']' } else { ')' };
    write!(
        f,
        "0 scope {} stretch {low_bracket}{},{}{high_bracket}",
        read.scope, read.low.0, read.high.0
    )
}

fn tell_edge<W: fmt::Write>(read: &EdgeRead, f: &mut Formatter<W>) -> fmt::Result {
    match read.next {
        Some(key) => write!(f, "0 next {} bands{}", key.0, Flagged(&read.flags)),
        None => write!(f, "0 next none bands{}", Flagged(&read.flags)),
    }
}

impl Display for NotDone {
    fn fmt<W: fmt::Write>(&self, f: &mut Formatter<W>) -> fmt::Result {
        match self {
            NotDone::Fault(fault) => write!(f, "? {fault}"),
            NotDone::Refused(refusal) => write!(
                f,
                "{} {}",
                u32::from(*refusal),
                words_of(*refusal)
            ),
            NotDone::Wrong(wrong) => write!(
                f,
                "{} place {} {}",
                u32::from(wrong.refusal),
                wrong.place,
                words_of(wrong.refusal)
            ),
        }
    }
}

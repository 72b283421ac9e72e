// What the desk answers.
use card::{Held, Wrong};
use desk_lines::Fault;
use hall::{BandRead, EdgeRead, NodeRead, Refusal, RoomRead, StabRead};
use wheel::Turned;

// What is told of a command that is done.
#[derive(Clone, Copy, Debug)]
pub enum Told {
    Done,
    Help,
    // A word, or a sum of words.
    Number(u32),
    // Whether the memory is sound.
    Checked(bool),
    Stab(StabRead),
    Band(BandRead),
    Edge(EdgeRead),
    Node(NodeRead),
    Room(RoomRead),
    Turn(Turned),
    Scan(Held),
}

// Why a command is not done: something is wrong with its line, a call or the wheel refuses it, or the card's scan does.
#[derive(Clone, Copy, Debug)]
pub enum NotDone {
    Fault(Fault),
    Refused(Refusal),
    Wrong(Wrong),
}

impl From<Fault> for NotDone {
    fn from(fault: Fault) -> NotDone {
        NotDone::Fault(fault)
    }
}

impl From<Refusal> for NotDone {
    fn from(refusal: Refusal) -> NotDone {
        NotDone::Refused(refusal)
    }
}

impl From<Wrong> for NotDone {
    fn from(wrong: Wrong) -> NotDone {
        NotDone::Wrong(wrong)
    }
}

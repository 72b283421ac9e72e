// What the box answers, and the paper's numbers.
ghost use Rattle.std.specs.Prelude.{◌≡◌};
ghost use Rattle.hall.specs.Says.{refusal_says, answer_says};

// Why the box says no: a case for each line of the paper's table, in its order.
#[derive(Clone, Copy, Debug, PartialEq, Eq)]
pub enum Refusal {
    MemoryUnfit,
    ScopeAbove,
    NumberAbove,
    KeyAbove,
    HoldsNoKey,
    EndElsewhere,
    LevelWrong,
    NumberLive,
    NumberNotLive,
    ScopeOther,
    NodesExceed,
    MarksExceed,
    NoNodeOrLane,
}

// What a call comes to that tells nothing beside being accepted.
pub type Answer = Result<(), Refusal>;

// The line's number. Only this and the desk's words (`desk_answers`) tell refusals apart: a new one is added in both, and where its number is stated.
impl From<Refusal> for u32 {
    ghost from_gives = { λ refusal number. number ≡ refusal_says refusal };

    fn from(refusal: Refusal) -> u32 {
        match refusal {
            Refusal::MemoryUnfit => 1,
            Refusal::ScopeAbove => 2,
            Refusal::NumberAbove => 3,
            Refusal::KeyAbove => 4,
            Refusal::HoldsNoKey => 5,
            Refusal::EndElsewhere => 6,
            Refusal::LevelWrong => 7,
            Refusal::NumberLive => 8,
            Refusal::NumberNotLive => 9,
            Refusal::ScopeOther => 10,
            Refusal::NodesExceed => 11,
            Refusal::MarksExceed => 12,
            Refusal::NoNodeOrLane => 13,
        }
    }
}

// The number that the box gives out: 0 where the call is accepted.
pub fn number_of(answer: Answer) -> u32
    ensures { result ≡ answer_says answer }
{
    match answer {
        Ok(()) => 0,
        Err(refusal) => u32::from(refusal),
    }
}

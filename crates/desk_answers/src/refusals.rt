// The words of the refusals, which are the desk's: the paper has only their numbers.
use hall::Refusal;

pub(crate) fn words_of(refusal: Refusal) -> &'static str {
    match refusal {
        Refusal::MemoryUnfit => "sizes are out of range, or memory is not sound",
        Refusal::ScopeAbove => "scope above 64",
        Refusal::NumberAbove => "band number above 1023",
        Refusal::KeyAbove => "key above 2097151",
        Refusal::HoldsNoKey => "band holds no whole key",
        Refusal::EndElsewhere => "an end is not among the machine's keys",
        Refusal::LevelWrong => "level not 1 to 8, or wheel place not 1 to 1024",
        Refusal::NumberLive => "number is live",
        Refusal::NumberNotLive => "number is not live",
        Refusal::ScopeOther => "the band's scope is another",
        Refusal::NodesExceed => "nodes after the call would exceed the node room",
        Refusal::MarksExceed => "marks after the call would exceed the mark room",
        Refusal::NoNodeOrLane => "no node at the key, or it has no such lane",
    }
}

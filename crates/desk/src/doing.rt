// Commands done: on the memory that is lent, or on what is the desk's own.
use crate::carding::Card;
use crate::lending::Lent;
use crate::poking;
use desk_answers::{NotDone, Told};
use desk_lines::Command;
use store::MemoryMut;
use wheel::Place;

// What the desk knows from line to line: how much it lends, and the bench card.
#[derive(Drop)]
pub(crate) struct Desk {
    pub lent: Lent,
    card: Card,
}

impl Desk {
    // At the start the largest memory that the box takes is lent, and the card has no record.
    pub(crate) fn new() -> Desk {
        Desk {
            lent: Lent::largest(),
            card: Card::new(),
        }
    }

    // Does a command, and tells what comes of it: of many no more than that they are done.
    pub(crate) fn answer(
        &mut self,
        command: Command,
        memory: &mut MemoryMut<'_>,
    ) -> Result<Told, NotDone> {
        let asked = memory.to_ask();
        match command {
            Command::Memory { nodes, marks } => self.lent = Lent::of_room(nodes, marks)?,
            Command::Lengths {
                bands,
                nodes,
                marks,
            } => self.lent = Lent::of_lengths(bands, nodes, marks)?,
            Command::Fill { word } => poking::fill(memory, word),
            Command::Poke { slice, index, word } => poking::poke(memory, slice, index, word)?,
            Command::Empty => emptying::empty(memory)?,
            Command::Insert(entry) => inserting::insert(memory, entry)?,
            Command::Remove { number, scope } => removing::remove(memory, number, scope)?,
            Command::CardClear => self.card.clear(),
            Command::CardAdd(band) => self.card.add(band)?,
            Command::CardScan(key) => return Ok(Told::Scan(self.card.scan(key)?)),
            Command::Peek { slice, index } => return Ok(Told::Number(poking::peek(
                asked, slice, index,
            )?)),
            Command::Sum => return Ok(Told::Number(poking::sum(asked))),
            Command::Stab(key) => return Ok(Told::Stab(asking::stab(asked, key)?)),
            Command::Check => return Ok(Told::Checked(checking::check(asked))),
            Command::Band { number } => return Ok(Told::Band(asking::band(asked, number)?)),
            Command::Edge { key, lane } => return Ok(Told::Edge(asking::edge(asked, key, lane)?)),
            Command::Node(key) => return Ok(Told::Node(asking::node(asked, key)?)),
            Command::Room => return Ok(Told::Room(asking::room(asked)?)),
            Command::Wheel { place } => return Ok(Told::Turn(wheel::turn(Place(place))?)),
            Command::Help => return Ok(Told::Help),
        }
        Ok(Told::Done)
    }
}

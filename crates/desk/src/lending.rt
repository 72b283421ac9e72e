// What the desk lends: of each store so many words, from its first on, never more than it has.
ghost use Rattle.std.specs.Prelude.{◌≤◌};
ghost use Rattle.desk.specs.declared.lending.TheConstants.{BAND_STORE, MARK_STORE, NODE_STORE};

use desk_lines::Fault;
use store::MemoryMut;

// The stores have some more words than the largest memory of the box, so that lengths that are too large can be lent as well.
const BAND_STORE: usize = 8200;

const NODE_STORE: usize = 41020;

const MARK_STORE: usize = 16400;

// The words that there are to lend.
#[derive(Drop)]
pub(crate) struct Stores {
    bands: [u32; BAND_STORE],
    nodes: [u32; NODE_STORE],
    marks: [u32; MARK_STORE],
}

impl Stores {
    pub(crate) fn new() -> Stores {
        Stores {
            bands: [0; BAND_STORE],
            nodes: [0; NODE_STORE],
            marks: [0; MARK_STORE],
        }
    }

    // The memory that is lent of them.
    pub(crate) fn memory(&mut self, lent: Lent) -> MemoryMut<'_> {
        let bands = &mut self.bands;
        let nodes = &mut self.nodes;
        let marks = &mut self.marks;
        MemoryMut {
            bands: &mut bands[..lent.bands],
            nodes: &mut nodes[..lent.nodes],
            marks: &mut marks[..lent.marks],
        }
    }
}

// How many words are lent of each store.
#[derive(Clone, Copy)]
pub(crate) struct Lent {
    bands: usize,
    nodes: usize,
    marks: usize,
    ghost bands_there: { bands ≤ BAND_STORE },
    ghost nodes_there: { nodes ≤ NODE_STORE },
    ghost marks_there: { marks ≤ MARK_STORE },
}

impl Lent {
    // The largest memory that the box takes.
    pub(crate) fn largest() -> Lent {
        Lent {
            bands: store::BAND_WORDS,
            nodes: store::NODE_PLACE_WORDS * (store::MOST_NODES + 1),
            marks: store::MOST_MARKS,
        }
    }

    // The memory of a room, with a place for each node and one for the header, and a word for each mark.
    pub(crate) fn of_room(nodes: u32, marks: u32) -> Result<Lent, Fault> {
        Lent::of(
            store::BAND_WORDS,
            store::NODE_PLACE_WORDS * (nodes as usize + 1),
            marks as usize,
        )
    }

    pub(crate) fn of_lengths(bands: u32, nodes: u32, marks: u32) -> Result<Lent, Fault> {
        Lent::of(bands as usize, nodes as usize, marks as usize)
    }

    fn of(bands: usize, nodes: usize, marks: usize) -> Result<Lent, Fault> {
        if bands <= BAND_STORE && nodes <= NODE_STORE && marks <= MARK_STORE {
            Ok(Lent {
                bands,
                nodes,
                marks,
            })
        } else {
            Err(Fault::NoSuchMemory)
        }
    }
}

// Taking marks: the flags of what was taken, and how many marks that was.
ghost use Rattle.std.specs.Prelude.{◌≡◌, ◌+◌, ◌≤◌, ◌<◌, ◌^◌, [], length};
ghost use Rattle.rules.specs.NodesLanesEdges.{lanes};
ghost use Rattle.rules.specs.Room.{most_marks};
ghost use Rattle.store.specs.SaidMarks.{between, said_marks};
ghost use Rattle.search.specs.Found.{with_taken, taken_of};

#[derive(Clone, Copy)]
pub struct Taken {
    pub flags: [u64; 16],
    pub met: u32,
}

impl Taken {
    // Nothing taken yet.
    #[tactic(auto, using(rules::proofs::Flags::flags_of_none))]
    pub(crate) fn nothing() -> Taken
        ensures { result ≡ taken_of [] }
    {
        Taken {
            flags: [0; 16],
            met: 0,
        }
    }

    // Of the first `to` marks takes those past the first `from`, as far as there are any.
    fn take(&mut self, marks: &[u32], from: u32, to: u32)
        requires { self.old.met + length marks.now < 2 ^ 32 }
        ensures { self.new ≡ with_taken self.old (between from to marks.now) }
    {
        let end = (to as usize).min(marks.len());
        let start = (from as usize).min(end);
        for &number in &marks[start..end] {
            flags::set(&mut self.flags, number);
            self.met += 1;
        }
    }

    // Takes the marks of a slot: slot 0 is the node itself, slot 1 + i its edge in lane i.
    pub(crate) fn take_slot(&mut self, nodes: &[u32], marks: &[u32], place: u32, slot: usize)
        requires { (slot ≤ lanes) × (self.old.met + length marks.now < 2 ^ 32) }
        ensures { self.new ≡ with_taken self.old (said_marks nodes.now marks.now place slot) }
    {
        let from = store::node_word(nodes, place, store::FENCES + slot);
        let to = store::node_word(nodes, place, store::FENCES + slot + 1);
        self.take(marks, from, to);
    }
}

// What is marked in a slot.
pub fn marked(nodes: &[u32], marks: &[u32], place: u32, slot: usize) -> Taken
    requires { (slot ≤ lanes) × (length marks.now ≤ most_marks) }
    ensures { result ≡ taken_of (said_marks nodes.now marks.now place slot) }
{
    let mut taken = Taken::nothing();
    taken.take_slot(nodes, marks, place, slot);
    taken
}

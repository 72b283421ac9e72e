// The draft of a change, beside the lent memory: what stays of the memory's profile, then entries put to it.
ghost use Rattle.std.specs.Prelude.{◌≡◌, false, replicate};
ghost use Rattle.rules.specs.Profile.{Profile, is_live};
ghost use Rattle.rules.specs.Changes.{inserted};
ghost use Rattle.rules.specs.BoxSaysNo.{fault_of};
ghost use Rattle.hall.specs.SaidBand.{said};
ghost use Rattle.drafting.specs.NodeDraft.{draft_words};
ghost use Rattle.drafting.specs.Drafts.{Drafts};
ghost use Rattle.drafting.specs.Leaves.{Leaves};

use crate::{entry_drafting, keeping};
use hall::Entry;

// A draft has the largest room, though ends are put before 11 is judged: no profile that stands has more nodes, since each is at an end of a band
// and each band has a number of its own.
pub const DRAFT_WORDS: usize = store::NODE_PLACE_WORDS * (store::MOST_NODES + 1);

// Band words and node words as one value. Whoever drafts makes it of zeros where it is to stand, and lends it; who has such words apart, in slices, calls
// the functions that its methods call.
#[derive(Drop)]
pub struct Draft {
    pub bands: [u32; store::BAND_WORDS],
    pub nodes: [u32; DRAFT_WORDS],
}

impl Draft {
    // Drafts what the draft's bands and node words leave: the nodes at an end of a band.
    pub fn keep_ends(&mut self, nodes: &[u32])
        requires { ((p : Profile) × Leaves p self.old.bands nodes.now) × (self.old.nodes ≡ replicate draft_words 0) }
        ensures drafts { (p : Profile) → Leaves p self.old.bands nodes.now → Drafts p self.new.bands self.new.nodes }
        ensures bands { self.new.bands ≡ self.old.bands }
    {
        keeping::keep_ends(&self.bands, nodes, &mut self.nodes);
    }

    // What was the draft of a profile becomes the draft of that profile with the band inserted.
    pub fn put_entry(&mut self, entry: Entry)
        requires { (p : Profile)
            × Drafts p self.old.bands self.old.nodes
            × (fault_of (said entry.band) entry.low_level entry.high_level ≡ 0)
            × (is_live entry.band.number p.bands ≡ false) }
        ensures { (p : Profile) → Drafts p self.old.bands self.old.nodes
            → Drafts (inserted p (said entry.band) entry.low_level entry.high_level) self.new.bands self.new.nodes }
    {
        entry_drafting::put_entry(&mut self.bands, &mut self.nodes, entry);
    }
}

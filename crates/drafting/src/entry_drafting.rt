// An entry put into a draft: a band, with the levels for the nodes at its ends.
ghost use Rattle.std.specs.Prelude.{◌≡◌, false};
ghost use Rattle.rules.specs.Profile.{Profile, is_live};
ghost use Rattle.rules.specs.Changes.{inserted};
ghost use Rattle.rules.specs.BoxSaysNo.{fault_of};
ghost use Rattle.hall.specs.SaidBand.{said};
ghost use Rattle.drafting.specs.Drafts.{Drafts};

use crate::node_drafting;
use crate::node_drafting::Node;
use hall::Entry;

// What was the draft of a profile becomes the draft of that profile with the band inserted: nodes at its ends where none stand, the low end first, and
// the band. It is called where 2 to 8 would refuse nothing; a draft with a free number has room for two nodes more.
pub fn put_entry(draft_bands: &mut [u32], draft_nodes: &mut [u32], entry: Entry)
    requires { (p : Profile)
        × Drafts p draft_bands.old draft_nodes.old
        × (fault_of (said entry.band) entry.low_level entry.high_level ≡ 0)
        × (is_live entry.band.number p.bands ≡ false) }
    ensures { (p : Profile) → Drafts p draft_bands.old draft_nodes.old
        → Drafts (inserted p (said entry.band) entry.low_level entry.high_level) draft_bands.new draft_nodes.new }
{
    let low = Node {
        key: entry.band.low,
        level: entry.low_level,
    };
    let high = Node {
        key: entry.band.high,
        level: entry.high_level,
    };
    node_drafting::put_node(draft_nodes, low);
    node_drafting::put_node(draft_nodes, high);
    store::put_band(draft_bands, entry.band);
}

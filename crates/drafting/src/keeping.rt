// The nodes that stay: those at an end of a band.
ghost use Rattle.std.specs.Prelude.{◌≡◌, ◌≤◌, replicate};
ghost use Rattle.rules.specs.Profile.{Profile};
ghost use Rattle.rules.specs.Room.{most_nodes};
ghost use Rattle.store.specs.Places.{in_use};
ghost use Rattle.drafting.specs.NodeDraft.{draft_words, DraftOf};
ghost use Rattle.drafting.specs.Drafts.{Drafts};
ghost use Rattle.drafting.specs.Leaves.{Leaves};
ghost use Rattle.drafting.specs.NotedNodes.{noted_nodes};

use crate::node_drafting;

// Drafts the nodes whose places are noted.
fn keep_noted(nodes: &[u32], found: &[u32; linking::MOST_PLACES], draft: &mut [u32])
    requires { (in_use nodes.now ≤ most_nodes) × (draft.old ≡ replicate draft_words 0) }
    ensures { DraftOf (noted_nodes nodes.now found.now) draft.new }
{
    let in_use = store::node_word(nodes, store::HEADER, store::NODES_IN_USE);
    for place in 1..=in_use {
        let noted = found[place as usize] != 0;
        if noted {
            node_drafting::add_node(draft, node_drafting::node_at(nodes, place));
        }
    }
}

// Drafts what band words and node words leave: the nodes at an end of a band. The ends are noted, number by number, rather than each node looked for
// among the bands.
pub fn keep_ends(bands: &[u32], nodes: &[u32], draft: &mut [u32])
    requires { ((p : Profile) × Leaves p bands.now nodes.now) × (draft.old ≡ replicate draft_words 0) }
    ensures { (p : Profile) → Leaves p bands.now nodes.now → Drafts p bands.now draft.new }
{
    let mut found = [0u32; linking::MOST_PLACES];
    linking::note_ends(bands, nodes, &mut found);
    keep_noted(nodes, &found, draft);
}

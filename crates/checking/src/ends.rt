// The test that ends and nodes match both ways.
ghost use Rattle.std.specs.Prelude.{◌≡◌, ◌≤◌};
ghost use Rattle.rules.specs.Room.{most_nodes};
ghost use Rattle.checking.specs.Ends.{ends_match, all_noted};

use marking::Profile;

// Whether each node place in use is noted.
fn all_noted(found: &[u32; linking::MOST_PLACES], in_use: u32) -> bool
    requires { in_use ≤ most_nodes }
    ensures { result ≡ all_noted found.now in_use }
{
    found[1..=in_use as usize].iter().all(|&note| note != 0)
}

// Whether each end of a live band has a node, and each node is such an end.
// Its array is large, so it keeps a frame of its own (`check` says why).
#[inline(never)]
#[tactic(auto, using(crate::proofs::Joined::joined), unfolding(crate::specs::Ends::ends_match))]
pub(crate) fn ends_match(profile: Profile<'_>) -> bool
    ensures { result ≡ ends_match profile.entry.bands.now profile.entry.nodes.now }
{
    let mut found = [0; linking::MOST_PLACES];
    let in_use = store::node_word(profile.nodes, store::HEADER, store::NODES_IN_USE);
    let placed = linking::note_ends(profile.bands, profile.nodes, &mut found);
    placed && all_noted(&found, in_use)
}

// A draft judged by 11 and 12, and completed where neither is given: its links, the counts in the header, and its fences.
ghost use Rattle.std.specs.Prelude.{◌≡◌, true, ◌≤◌, length, replicate};
ghost use Rattle.rules.specs.Room.{room_of, most_nodes, most_marks};
ghost use Rattle.rules.specs.BoxSaysNo.{fit_refusal};
ghost use Rattle.rules.specs.SoundMemory.{standing};
ghost use Rattle.hall.specs.Says.{answer_says};
ghost use Rattle.store.specs.SaidProfile.{said_nodes, said_by};
ghost use Rattle.store.specs.LaidNodes.{laid_nodes};
ghost use Rattle.drafting.specs.NodeDraft.{draft_words, DraftOf};
ghost use Rattle.committing.specs.Committed.{starts_by};

use crate::{fence_laying, link_laying};
use hall::{Answer, Refusal};
use marking::Profile;

// Judges 11, lays the links, counts the marks and judges 12; where neither is given it completes the draft with header and fences. The cursors are then
// the starts of the slots. The draft's parts come apart, the bands by `&`: so the type says that no band word of it is written.
pub(crate) fn complete(
    draft_bands: &[u32],
    draft_nodes: &mut [u32],
    node_room: usize,
    mark_room: usize,
    cursors: &mut [u32; marking::MOST_CURSORS],
) -> Answer
    requires { DraftOf (said_nodes draft_nodes.old) draft_nodes.old
        × (standing (said_by draft_bands.now draft_nodes.old) ≡ true)
        × (node_room ≤ most_nodes)
        × (mark_room ≤ most_marks)
        × (cursors.old ≡ replicate (length cursors.old) 0) }
    ensures { (answer_says result ≡ fit_refusal (room_of node_room mark_room) (said_by draft_bands.now draft_nodes.old))
        × (answer_says result ≡ 0
        → (draft_nodes.new ≡ laid_nodes draft_words (said_by draft_bands.now draft_nodes.old))
        × (cursors.new ≡ starts_by cursors.old draft_bands.now draft_nodes.new)) }
{
    let in_use = store::node_word(draft_nodes, store::HEADER, store::NODES_IN_USE);
    if node_room < in_use as usize {
        return Err(Refusal::NodesExceed);
    }
    link_laying::lay_links(draft_nodes);
    let profile = Profile {
        bands: draft_bands,
        nodes: draft_nodes,
    };
    let sum = marking::count(profile, mark_room, cursors);
    if mark_room < sum {
        return Err(Refusal::MarksExceed);
    }
    let lanes = store::LANES as u32;
    store::put_node_word(draft_nodes, store::HEADER, store::LANE_COUNT, lanes);
    store::put_node_word(draft_nodes, store::HEADER, store::MARKS_IN_USE, sum as u32);
    marking::to_starts(cursors);
    fence_laying::lay_fences(draft_nodes, cursors);
    Ok(())
}

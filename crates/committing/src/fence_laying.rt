// Laying the fences, where the start of each slot is known.
ghost use Rattle.std.specs.Prelude.{◌≤◌, length};
ghost use Rattle.rules.specs.Room.{most_nodes};
ghost use Rattle.store.specs.Places.{in_use};
ghost use Rattle.store.specs.HasFields.{HasFields};
ghost use Rattle.committing.specs.FenceDraft.{fenced_field, fenced_at_field};

// The ten fences of a place: the starts of its slots and of the slot after them.
fn put_fences(draft: &mut [u32], starts: &[u32; marking::MOST_CURSORS], place: u32)
    requires { (1 ≤ place) × (place ≤ most_nodes) }
    ensures { HasFields (length draft.old) (fenced_at_field draft.old starts.now place) draft.new }
{
    let first = (place as usize - 1) * store::SLOTS_PER_NODE;
    for slot in 0..=store::SLOTS_PER_NODE {
        store::put_node_word(draft, place, store::FENCES + slot, starts[first + slot]);
    }
}

// The fences of all nodes.
pub(crate) fn lay_fences(draft: &mut [u32], starts: &[u32; marking::MOST_CURSORS])
    requires { in_use draft.old ≤ most_nodes }
    ensures { HasFields (length draft.old) (fenced_field draft.old starts.now) draft.new }
{
    let in_use = store::node_word(draft, store::HEADER, store::NODES_IN_USE);
    for place in 1..=in_use {
        put_fences(draft, starts, place);
    }
}

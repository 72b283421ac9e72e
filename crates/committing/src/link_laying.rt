// Laying the links: one pass from the last node back to the header, with the first place seen so far in each lane.
ghost use Rattle.std.specs.Prelude.{length};
ghost use Rattle.store.specs.HasFields.{HasFields};
ghost use Rattle.committing.specs.LinkDraft.{linked_field, linked_at_field};

// The links of a place that has them in so many lanes, to the first places ahead; in other lanes 0.
fn put_links(draft: &mut [u32], place: u32, level: usize, ahead: &[u32; store::LANES])
    ensures { HasFields (length draft.old) (linked_at_field draft.old place level ahead.now) draft.new }
{
    for lane in 0..store::LANES {
        let link = linking::link_due(level, lane, ahead);
        store::put_node_word(draft, place, store::LINKS + lane, link);
    }
}

// The links of the header and of all nodes.
pub(crate) fn lay_links(draft: &mut [u32])
    ensures { HasFields (length draft.old) (linked_field draft.old) draft.new }
{
    let mut ahead = [0u32; store::LANES];
    let in_use = store::node_word(draft, store::HEADER, store::NODES_IN_USE);
    for place in (1..=in_use).rev() {
        let level = store::node_word(draft, place, store::LEVEL) as usize;
        put_links(draft, place, level, &ahead);
        linking::raise(place, level, &mut ahead);
    }
    put_links(draft, store::HEADER, store::LANES, &ahead);
}

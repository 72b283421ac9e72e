// The test of fences and marks: the marks that the bands ask for are counted, and laid in a draft.
ghost use Rattle.std.specs.Prelude.{◌≡◌, ◌≤◌, length};
ghost use Rattle.rules.specs.Room.{most_nodes, most_marks};
ghost use Rattle.checking.specs.MarkPlaces.{marks_in_use_right, marks_right, place_fences_at, fences_at, marks_as_laid};

use marking::Profile;

// Whether there is room for so many marks, and the header counts them.
fn marks_in_use_right(nodes: &[u32], room: usize, count: usize) -> bool
    ensures { result ≡ marks_in_use_right nodes.now room count }
{
    count <= room && store::node_word(nodes, store::HEADER, store::MARKS_IN_USE) as usize == count
}

// Whether the ten fences of a place are the starts of its slots and of the slot after them.
fn place_fences_at(nodes: &[u32], starts: &[u32; marking::MOST_CURSORS], place: u32) -> bool
    requires { (1 ≤ place) × (place ≤ most_nodes) }
    ensures { result ≡ place_fences_at nodes.now starts.now place }
{
    let first = (place as usize - 1) * store::SLOTS_PER_NODE;
    (0..=store::SLOTS_PER_NODE).all(|slot| {
        store::node_word(nodes, place, store::FENCES + slot) == starts[first + slot]
    })
}

// Whether all fences are the starts of their slots.
fn fences_at(profile: Profile<'_>, starts: &[u32; marking::MOST_CURSORS]) -> bool
    ensures { result ≡ fences_at profile.entry.nodes.now starts.now }
{
    let nodes = profile.nodes;
    let in_use = store::node_word(nodes, store::HEADER, store::NODES_IN_USE);
    (1..=in_use).all(|place| place_fences_at(nodes, starts, place))
}

// Whether the marks are those that the bands ask for, laid from these starts on.
fn marks_as_laid(
    profile: Profile<'_>,
    marks: &[u32],
    starts: &mut [u32; marking::MOST_CURSORS],
    draft: &mut [u32; store::MOST_MARKS],
) -> bool
    requires { length marks.now ≤ most_marks }
    ensures { result ≡ marks_as_laid profile.entry.bands.now profile.entry.nodes.now marks.now starts.old draft.old }
{
    marking::lay(profile, starts, draft);
    marks == &draft[..marks.len()]
}

// Whether fences, marks and the count of marks are those that the bands ask for.
// Its arrays are large, so it keeps a frame of its own (`check` says why).
#[inline(never)]
pub(crate) fn marks_right(profile: Profile<'_>, marks: &[u32]) -> bool
    requires { length marks.now ≤ most_marks }
    ensures { result ≡ marks_right profile.entry.bands.now profile.entry.nodes.now marks.now }
{
    let mut cursors = [0; marking::MOST_CURSORS];
    let mut draft = [0; store::MOST_MARKS];
    let sum = marking::count(profile, marks.len(), &mut cursors);
    if !marks_in_use_right(profile.nodes, marks.len(), sum) {
        return false;
    }
    marking::to_starts(&mut cursors);
    if !fences_at(profile, &cursors) {
        return false;
    }
    marks_as_laid(profile, marks, &mut cursors, &mut draft)
}

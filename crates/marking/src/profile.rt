// The profile that a walk goes through: its words lent as one value.
ghost use Rattle.std.specs.Prelude.{◌≤◌};
ghost use Rattle.rules.specs.Room.{most_nodes};
ghost use Rattle.store.specs.Places.{in_use};

// The words of bands and nodes that are to be marked, with no more nodes in use than there can be.
#[derive(Clone, Copy)]
pub struct Profile<'a> {
    pub bands: &'a [u32],
    pub nodes: &'a [u32],
    pub ghost few: { in_use nodes.now ≤ most_nodes },
}

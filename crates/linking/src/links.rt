// The link due at a place, by the first places ahead of it in each lane: known from the last node back to the header.
ghost use Rattle.std.specs.Prelude.{◌≡◌, ◌<◌, get_or};
ghost use Rattle.rules.specs.NodesLanesEdges.{lanes};
ghost use Rattle.linking.specs.LinksDue.{link_due, raised};

// The link due in a lane at a place with links in so many lanes: to the first place ahead, and in a lane that it has not 0.
pub fn link_due(level: usize, lane: usize, ahead: &[u32; store::LANES]) -> u32
    requires { lane < lanes }
    ensures { result ≡ link_due level lane (get_or ahead.now lane 0) }
{
    if lane < level { ahead[lane] } else { 0 }
}

// A node's place becomes the first ahead in each lane that it has.
pub fn raise(place: u32, level: usize, ahead: &mut [u32; store::LANES])
    ensures { ahead.new ≡ raised place level ahead.old }
{
    let lanes = store::LANES.min(level);
    ahead[..lanes].fill(place);
}

// The node that comes next in a lane.
ghost use Rattle.std.specs.Prelude.{◌≡◌, ◌<◌, IfNone, IfSome};
ghost use Rattle.rules.specs.NodesLanesEdges.{lanes};
ghost use Rattle.search.specs.Descent.{next_of};
ghost use Rattle.search.specs.Next.{IsNext};

use hall::Key;

// A node that comes next: the place it stands at, and its key.
#[derive(Clone, Copy)]
pub(crate) struct Next {
    pub place: u32,
    pub key: Key,
}

// The node that comes next after a place in a lane, where one does: a link of 0 leads nowhere.
#[tactic(auto, unfolding(crate::specs::Descent::next_of))]
pub(crate) fn next_in(nodes: &[u32], place: u32, lane: usize) -> Option<Next>
    requires { lane < lanes }
    ensures none { IfNone result (next_of nodes.now place lane ≡ 0) }
    ensures some { IfSome result (λ next. IsNext nodes.now (next_of nodes.now place lane) next) }
{
    let next = store::node_word(nodes, place, store::LINKS + lane);
    if next == 0 {
        return None;
    }
    Some(Next {
        place: next,
        key: Key(store::node_word(nodes, next, store::KEY)),
    })
}

// Going down: no access control applies.
ghost use Rattle.std.specs.Prelude.{◌≡◌, ◌+◌, ◌≤◌};
ghost use Rattle.rules.specs.Snapshot.{count};
ghost use Rattle.rules.specs.Route as rule;
ghost use Rattle.cover.specs.Asked.{shape};
ghost use Rattle.walk.specs.Trails.{Descends};

use crate::hops::Trail;
use cover::Visit;
use port::pass::next_down;
use rules::{Action, Down, Landing};

// The node that a landing is at.
fn lands_at(l: Landing) -> u16
    ensures { result ≡ rule.lands_at l }
{
    match l {
        Landing::Arrives(i) | Landing::Nobody(i) => i,
    }
}

// Down from a port, with its hops put on the trail. The records left above the index fall at each
// call.
pub fn go_down(visit: Visit<'_>, trail: &mut Trail<'_>) -> Landing
    requires { trail.old.hops ≤ count visit.query.bytes.now + visit.node + 1 }
    ensures { let v = visit.entry in Descends (rule.down (shape v.query) v.query.tlp v.node) trail.old result trail.new }
{
    match next_down(visit) {
        Down::Into(q) => {
            trail.put(visit.node, Action::Downward);
            // Written out: what `Query::at` says is equations, over which the laws of the walk don't close.
            let below = Visit {
                query: visit.query,
                node: q,
            };
            go_down(below, trail)
        }
        Down::Lands(l) => {
            trail.put(visit.node, Action::Downward);
            trail.put(lands_at(l), Action::EndsHere);
            l
        }
        Down::Alone => {
            trail.put(visit.node, Action::EndsHere);
            Landing::Nobody(visit.node)
        }
    }
}

// Going up from port to port, and the reflection at the top.
ghost use Rattle.std.specs.Prelude.{◌≡◌, false, ◌+◌, ◌≤◌};
ghost use Rattle.rules.specs.Snapshot.{count, kind, is_root};
ghost use Rattle.rules.specs.Route as rule;
ghost use Rattle.rules.specs.Properties.{IsPort};
ghost use Rattle.cover.specs.Asked.{shape, setting};
ghost use Rattle.walk.specs.Trails.{Walks};

use crate::down::go_down;
use crate::hops::Trail;
use cover::{Query, Visit};
use layout::COMPLEX;
use port::decide::decide;
use rules::{Action, Landing, Move, Outcome};

// A landing as an outcome: a delivery is checked or not.
fn landed(checked: bool, l: Landing) -> Outcome
    ensures { result ≡ rule.landed checked l }
{
    match l {
        Landing::Arrives(i) => Outcome::Delivered(i, checked),
        Landing::Nobody(i) => Outcome::Unclaimed(i),
    }
}

// Down the root port that covers it: the host's own TLP, or a reflected one, which is checked.
pub fn from_top(query: Query<'_>, checked: bool, trail: &mut Trail<'_>) -> Outcome
    requires { trail.old.hops ≤ count query.bytes.now + 1 }
    ensures { let q = query.entry in Walks (rule.from_top (shape q) q.tlp checked) trail.old result trail.new }
{
    match query.entry() {
        Some(node) => landed(checked, go_down(Visit { query, node }, trail)),
        None => {
            trail.put(COMPLEX, Action::EndsHere);
            Outcome::Unclaimed(COMPLEX)
        }
    }
}

// The port above the parent.
fn port_above(visit: Visit<'_>) -> u16
    requires { is_root (kind visit.query.bytes.now visit.node) ≡ false }
    ensures { let v = visit.entry in result ≡ rule.above (shape v.query) v.node }
{
    visit.parent().record().parent()
}

// Up from port p, with its hops put on the trail. A loop from port to port, by the decision at each:
// the index falls at each turn. Visits are written out, as in `go_down`.
pub fn go_up(query: Query<'_>, mut p: u16, trail: &mut Trail<'_>) -> Outcome
    requires { IsPort query.bytes.now p × (trail.old.hops + p ≤ count query.bytes.now) }
    ensures { let q = query.entry in Walks (rule.up (shape q) (setting q) q.tlp p) trail.old result trail.new }
{
    loop {
        let visit = Visit { query, node: p };
        match decide(visit) {
            Move::Up(action) => {
                trail.put(p, action);
                p = port_above(visit);
            }
            Move::Across(node) => {
                trail.put(p, Action::DirectToPeer);
                return landed(false, go_down(Visit { query, node }, trail));
            }
            Move::Reflect => {
                trail.put(p, Action::Reflected);
                return from_top(query, true, trail);
            }
            Move::Stop(end) => {
                trail.put(p, Action::EndsHere);
                return end;
            }
            Move::Beyond(end, node, action) => {
                trail.put(p, action);
                trail.put(node, Action::EndsHere);
                return end;
            }
        }
    }
}

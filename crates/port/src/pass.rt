// What a port entered going down does with a TLP. No access control applies.
ghost use Rattle.std.specs.Prelude.{◌≡◌};
ghost use Rattle.rules.specs.Route as rule;
ghost use Rattle.cover.specs.Asked.{shape};

use cover::Visit;
use layout::kind::Kind;
use rules::{Down, Landing};

// What the child of a port does with it: an endpoint is the end, and a kind 2 node passes it on.
fn through_child(visit: Visit<'_>) -> Down
    ensures { let v = visit.entry in result ≡ rule.through_child (shape v.query) v.query.tlp v.node }
{
    if !visit.covers() {
        return Down::Lands(Landing::Nobody(visit.node));
    }
    if visit.record().is(Kind::Endpoint) {
        return Down::Lands(Landing::Arrives(visit.node));
    }
    match visit.way_on() {
        Some(q) => Down::Into(q),
        None => Down::Lands(Landing::Nobody(visit.node)),
    }
}

// What the port does with it.
pub fn next_down(visit: Visit<'_>) -> Down
    ensures { let v = visit.entry in result ≡ rule.next_down (shape v.query) v.query.tlp v.node }
{
    match visit.child() {
        Some(c) => through_child(visit.query.at(c)),
        None => Down::Alone,
    }
}

// Rules of a record's kind and parent, and of the bytes that its kind leaves blank.
ghost use Rattle.std.specs.Prelude.{◌≡◌, ◌<◌, true, is_some, is_none, IfSome};
ghost use Rattle.rules.specs.Snapshot as snapshot;
ghost use Rattle.rules.specs.Records.{kind_fine, stands_under, parent_fine, under_port, blank_fine};

use layout::COMPLEX;
use layout::kind::Kind;
use layout::record::Record;
use rules::{Bus, PortNumber};

#[tactic(auto, unfolding(rules::specs::Records::kind_fine))]
pub fn kind_fine(r: Record<'_>) -> bool
    ensures { result ≡ kind_fine r.entry.bytes.now r.entry.index }
{
    r.kind().is_ok() && r.is_zero(12, 4)
}

fn stands_under(r: Record<'_>, above: Record<'_>) -> bool
    ensures { result
        ≡ stands_under (snapshot.kind r.entry.bytes.now r.entry.index)
        (snapshot.kind above.entry.bytes.now above.entry.index) }
{
    if r.is(Kind::Downstream) {
        above.is(Kind::Upstream)
    } else {
        above.is_port()
    }
}

// Record j, an earlier one of the same snapshot.
pub fn earlier<'a>(r: Record<'a>, j: u16) -> Record<'a>
    requires { j < r.index }
    ensures bytes { result.bytes.now ≡ r.entry.bytes.now }
    ensures index { result.index ≡ j }
{
    Record {
        bytes: r.bytes,
        index: j,
    }
}

// The parent's kind is read only where the parent is an earlier record.
#[tactic(auto, unfolding(rules::specs::Records::parent_fine))]
pub fn parent_fine(r: Record<'_>) -> bool
    ensures { result ≡ parent_fine r.entry.bytes.now r.entry.index }
{
    let above = r.parent();
    if r.is(Kind::Root) {
        return above == COMPLEX;
    }
    above < r.index && stands_under(r, earlier(r, above))
}

// A record whose parent is right: a root port, or one that stands under an earlier record.
#[derive(Clone, Copy)]
pub struct Placed<'a> {
    pub node: Record<'a>,
    pub ghost placed: { parent_fine node.bytes.now node.index ≡ true },
}

impl<'a> Placed<'a> {
    pub fn of(node: Record<'a>) -> Option<Placed<'a>>
        ensures placed { is_some result ≡ parent_fine node.entry.bytes.now node.entry.index }
        ensures bytes { IfSome result (λ p. p.node.bytes.now ≡ node.entry.bytes.now) }
        ensures index { IfSome result (λ p. p.node.index ≡ node.entry.index) }
    {
        if parent_fine(node) {
            Some(Placed { node })
        } else {
            None
        }
    }

    // The parent, which a root port, and it alone, does without.
    #[tactic(auto, unfolding(rules::specs::Records::parent_fine))]
    pub fn above(self) -> Option<Record<'a>>
        ensures root { is_none result
            ≡ snapshot.is_root (snapshot.kind self.entry.node.bytes.now self.entry.node.index) }
        ensures bytes { IfSome result (λ above. above.bytes.now ≡ self.entry.node.bytes.now) }
        ensures index { IfSome result
            (λ above. above.index ≡ snapshot.parent self.entry.node.bytes.now self.entry.node.index) }
    {
        if self.node.is(Kind::Root) {
            return None;
        }
        Some(earlier(self.node, self.node.parent()))
    }
}

// A kind that stands under a port, which has at most one child.
pub fn under_port(r: Record<'_>) -> bool
    ensures { result ≡ under_port (snapshot.kind r.entry.bytes.now r.entry.index) }
{
    r.is(Kind::Upstream) || r.is(Kind::Endpoint)
}

#[tactic(auto, unfolding(rules::specs::Records::blank_fine))]
pub fn blank_fine(r: Record<'_>) -> bool
    ensures { result ≡ blank_fine r.entry.bytes.now r.entry.index }
{
    (!under_port(r) || (r.port_number() == PortNumber(0) && r.devfn() == 0 && r.is_zero(8, 40)))
        && (!r.is(Kind::Endpoint) || (r.secondary() == Bus(0) && r.subordinate() == Bus(0)))
}

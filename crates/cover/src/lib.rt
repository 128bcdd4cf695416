// One TLP in an accepted snapshot: covering, and who is found by it.
#![tactic(auto)]

ghost use Rattle.std.specs.Prelude.{◌≡◌, false, ◌<◌, ◌≤◌, IfSome};
ghost use Rattle.rules.specs.declared.Target.TheVariants.{Address, Id};
ghost use Rattle.rules.specs.Accepted.{Accepted};
ghost use Rattle.rules.specs.Snapshot.{count, kind, parent, is_root, validation_reflects};
ghost use Rattle.rules.specs.Fabric.{shape_of};
ghost use Rattle.rules.specs.Cover as cover;
ghost use Rattle.cover.specs.Parts.{SiblingsFrom, ranges_used};

use layout::fabric::Fabric;
use layout::kind::Kind;
use layout::record::Record;
use rules::{Bus, Target, Tlp};

// The windows that bridges use, ranges 0 and 1.
const WINDOWS: u16 = 2;

// One TLP in an accepted snapshot, and what redirected request validation does with it: whether it
// reflects, read once for a query. A fabric's bytes and fact stand in it as they are, so that clauses
// name `query.bytes`.
#[derive(Clone, Copy)]
pub struct Query<'a> {
    pub bytes: &'a [u8],
    pub tlp: Tlp,
    pub reflects: bool,
    pub ghost accepted: { Accepted bytes.now },
    pub ghost told: { reflects ≡ validation_reflects bytes.now },
}

// The TLP at a node of the snapshot.
#[derive(Clone, Copy)]
pub struct Visit<'a> {
    pub query: Query<'a>,
    pub node: u16,
    pub ghost present: { node < count query.bytes.now },
}

impl<'a> Query<'a> {
    pub fn new(fabric: Fabric<'a>, tlp: Tlp) -> Query<'a>
        ensures bytes { result.bytes.now ≡ fabric.entry.bytes.now }
        ensures tlp { result.tlp ≡ tlp }
    {
        Query {
            bytes: fabric.bytes,
            tlp,
            reflects: fabric.snapshot().validation_reflects(),
        }
    }

    // The snapshot that the query is in.
    pub fn fabric(self) -> Fabric<'a>
        ensures { result.bytes.now ≡ self.entry.bytes.now }
    {
        Fabric { bytes: self.bytes }
    }

    // How many nodes there are.
    fn count(self) -> u16
        ensures { result ≡ count self.entry.bytes.now }
    {
        self.fabric().snapshot().count()
    }

    // The same TLP at this node. A node that is looked for is a number below the count and has no type:
    // `find` hands its closure the number, and that it is below the count follows from the range.
    pub fn at(self, node: u16) -> Visit<'a>
        requires { node < count self.bytes.now }
        ensures query { result.query ≡ self.entry }
        ensures node { result.node ≡ node }
    {
        Visit { query: self, node }
    }

    // Node q is a root port and covers the TLP.
    fn is_entry(self, q: u16) -> bool
        requires { q < count self.bytes.now }
        ensures { result ≡ cover.is_entry (shape_of self.entry.bytes.now) self.entry.tlp q }
    {
        let visit = self.at(q);
        visit.record().is(Kind::Root) && visit.covers()
    }

    // The root port that covers the TLP.
    pub fn entry(self) -> Option<u16>
        ensures value { result ≡ cover.entry_for (shape_of self.entry.bytes.now) self.entry.tlp }
        ensures present { IfSome result (λ q. q < count self.entry.bytes.now) }
    {
        (0..self.count()).find(|&q| self.is_entry(q))
    }
}

// How many ranges of a node may be open: six of an endpoint, the windows of a bridge.
fn ranges_used(node: Record<'_>) -> u16
    ensures { result ≡ ranges_used (kind node.entry.bytes.now node.entry.index) }
{
    if node.is(Kind::Endpoint) { 6 } else { WINDOWS }
}

impl<'a> Visit<'a> {
    pub fn record(self) -> Record<'a>
        ensures bytes { result.bytes.now ≡ self.entry.query.bytes.now }
        ensures index { result.index ≡ self.entry.node }
    {
        self.query.fabric().node(self.node)
    }

    // The node covers a request to this address: one of the ranges that it uses has it.
    fn covers_address(self, address: u64) -> bool
        ensures { result ≡ cover.covers_target (shape_of self.entry.query.bytes.now) (Address address) self.entry.node }
    {
        let record = self.record();
        (0..ranges_used(record)).any(|k| record.in_range(address, k))
    }

    // The node covers a completion to this ID: an endpoint by bus and byte 5, a bridge by its bus
    // range.
    fn covers_id(self, bus: Bus, devfn: u8) -> bool
        ensures { result ≡ cover.covers_target (shape_of self.entry.query.bytes.now) (Id bus devfn) self.entry.node }
    {
        let record = self.record();
        if record.is(Kind::Endpoint) {
            record.own_bus() == bus && record.devfn() == devfn
        } else {
            record.bus_range().contains(bus)
        }
    }

    // The node covers the TLP.
    pub fn covers(self) -> bool
        ensures { let v = self.entry in result ≡ cover.covers (shape_of v.query.bytes.now) v.query.tlp v.node }
    {
        match self.query.tlp.target {
            Target::Address(address) => self.covers_address(address),
            Target::Id(bus, devfn) => self.covers_id(bus, devfn),
        }
    }

    // The parent of a node that is no root port, as who asks has tested; it stands lower.
    pub fn parent(self) -> Visit<'a>
        requires { is_root (kind self.query.bytes.now self.node) ≡ false }
        ensures query { result.query ≡ self.entry.query }
        ensures node { result.node ≡ parent self.entry.query.bytes.now self.entry.node }
        ensures lower { result.node < self.entry.node }
    {
        self.query.at(self.record().parent())
    }

    // Node q is a sibling port of this one and covers the TLP. Most records are told apart by their
    // parents.
    fn is_peer(self, q: u16) -> bool
        requires { q < count self.query.bytes.now }
        ensures { let v = self.entry in result ≡ cover.is_peer (shape_of v.query.bytes.now) v.query.tlp v.node q }
    {
        let other = self.query.at(q);
        let record = other.record();
        record.parent() == self.record().parent()
            && record.is_port()
            && q != self.node
            && other.covers()
    }

    // The first node that can be a sibling of this one: siblings stand behind their parent, and root
    // ports, which have none, anywhere. (`records` has one of records that are not accepted yet.)
    fn first_sibling(self) -> u16
        ensures { SiblingsFrom self.entry.query.bytes.now self.entry.node result }
    {
        if self.record().is(Kind::Root) {
            0
        } else {
            self.parent().node + 1
        }
    }

    // The sibling port that covers the TLP.
    pub fn peer(self) -> Option<u16>
        ensures value { let v = self.entry in result ≡ cover.peer_of (shape_of v.query.bytes.now) v.query.tlp v.node }
        ensures present { IfSome result (λ q. q < count self.entry.query.bytes.now) }
    {
        (self.first_sibling()..self.query.count()).find(|&q| self.is_peer(q))
    }

    // Node c is what stands below this port for the TLP.
    fn is_child(self, c: u16) -> bool
        requires { c < count self.query.bytes.now }
        ensures { let v = self.entry in result ≡ cover.is_child (shape_of v.query.bytes.now) v.query.tlp v.node c }
    {
        self.query.at(c).record().parent() == self.node
    }

    // What stands below this port for the TLP.
    pub fn child(self) -> Option<u16>
        ensures value { let v = self.entry in result ≡ cover.child_for (shape_of v.query.bytes.now) v.query.tlp v.node }
        ensures present { IfSome result (λ c. c < count self.entry.query.bytes.now) }
    {
        (self.node + 1..self.query.count()).find(|&c| self.is_child(c))
    }

    // Node q stands under this kind 2 node and covers the TLP.
    fn is_way_on(self, q: u16) -> bool
        requires { q < count self.query.bytes.now }
        ensures { let v = self.entry in result ≡ cover.is_way_on (shape_of v.query.bytes.now) v.query.tlp v.node q }
    {
        let below = self.query.at(q);
        below.record().parent() == self.node && below.covers()
    }

    // The covering port of this kind 2 node. As `child`, but for its test: one line each.
    pub fn way_on(self) -> Option<u16>
        ensures value { let v = self.entry in result ≡ cover.way_on (shape_of v.query.bytes.now) v.query.tlp v.node }
        ensures present { IfSome result (λ q. q < count self.entry.query.bytes.now) }
    {
        (self.node + 1..self.query.count()).find(|&q| self.is_way_on(q))
    }
}

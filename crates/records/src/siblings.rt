// Rules between a record and its earlier siblings.
ghost use Rattle.std.specs.Prelude.{◌≡◌, ◌<◌, true};
ghost use Rattle.rules.specs.Below.{any_below};
ghost use Rattle.rules.specs.Records.{siblings, ranges_fine};
ghost use Rattle.records.specs.Parts.{conflict, apart, fine_alone, Earlier, Behind};

use crate::pair::Pair;
use crate::parents::{Placed, earlier, under_port};
use layout::record::Record;

impl Pair<'_> {
    // The two are siblings with buses, numbers or addresses in common. Most pairs of records are no
    // siblings, and are done with one look at the parents.
    #[tactic(auto, unfolding(crate::specs::Parts::conflict))]
    fn conflict(self) -> bool
        requires one { ranges_fine self.one.bytes.now self.one.index ≡ true }
        requires other { ranges_fine self.other.bytes.now self.other.index ≡ true }
        ensures { result ≡ conflict self.entry.one.bytes.now self.entry.one.index self.entry.other.index }
    {
        self.one.parent() == self.other.parent()
            && (self.buses_meet() || self.numbers_meet() || self.ranges_meet())
    }
}

// A record that keeps the rules by itself, behind records of which none is faulty.
#[derive(Clone, Copy)]
pub struct Next<'a> {
    pub node: Record<'a>,
    pub ghost alone: { fine_alone node.bytes.now node.index ≡ true },
    pub ghost earlier: { Earlier node.bytes.now node.index },
}

impl Next<'_> {
    // The first record that may be a sibling: earlier records stand behind their parents, so that
    // none up to this one's parent has the same.
    fn first_sibling(self) -> u16
        ensures { Behind self.entry.node.bytes.now self.entry.node.index result }
    {
        match (Placed { node: self.node }).above() {
            None => 0,
            Some(above) => above.index + 1,
        }
    }

    fn sibling(self, j: u16) -> bool
        requires { j < self.node.index }
        ensures { result ≡ siblings self.entry.node.bytes.now self.entry.node.index j }
    {
        self.node.parent() == earlier(self.node, j).parent()
    }

    fn conflict(self, j: u16) -> bool
        requires { j < self.node.index }
        ensures { result ≡ conflict self.entry.node.bytes.now self.entry.node.index j }
    {
        Pair {
            one: self.node,
            other: earlier(self.node, j),
        }
        .conflict()
    }

    // This and `has_conflict` differ in their test alone, and are one line each.
    fn has_sibling(self) -> bool
        ensures { result ≡ any_below self.entry.node.index (siblings self.entry.node.bytes.now self.entry.node.index) }
    {
        (self.first_sibling()..self.node.index).any(|j| self.sibling(j))
    }

    fn has_conflict(self) -> bool
        ensures { result ≡ any_below self.entry.node.index (conflict self.entry.node.bytes.now self.entry.node.index) }
    {
        (self.first_sibling()..self.node.index).any(|j| self.conflict(j))
    }

    // What stands under a port may have no sibling; any other record, none that it is in conflict
    // with.
    #[tactic(auto, unfolding(crate::specs::Parts::apart))]
    pub fn apart(self) -> bool
        ensures { result ≡ apart self.entry.node.bytes.now self.entry.node.index }
    {
        if under_port(self.node) {
            return !self.has_sibling();
        }
        !self.has_conflict()
    }
}

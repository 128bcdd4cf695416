// Rules of buses and of the numbers of ports.
ghost use Rattle.std.specs.Prelude.{◌≡◌};
ghost use Rattle.rules.specs.Snapshot as snapshot;
ghost use Rattle.rules.specs.Records.{own_bus_fine, bus_order_fine, buses_meet, numbers_meet, of_parent};

use crate::pair::Pair;
use crate::parents::Placed;
use layout::buses::BusRange;
use rules::Bus;

// What a root port stands under: it is on bus 0, and any bus may lie below it.
const ALL_BUSES: BusRange = BusRange {
    secondary: Bus(0),
    subordinate: Bus(255),
};

impl Placed<'_> {
    // The range that a record stands under: its parent's.
    fn buses_above(self) -> BusRange
        ensures secondary { result.secondary.0
            ≡ of_parent self.entry.node.bytes.now self.entry.node.index 0 snapshot.secondary }
        ensures subordinate { result.subordinate.0
            ≡ of_parent self.entry.node.bytes.now self.entry.node.index 255 snapshot.subordinate }
    {
        match self.above() {
            None => ALL_BUSES,
            Some(above) => above.bus_range(),
        }
    }

    #[tactic(auto, unfolding(rules::specs::Records::own_bus_fine))]
    pub fn own_bus_fine(self) -> bool
        ensures { result ≡ own_bus_fine self.entry.node.bytes.now self.entry.node.index }
    {
        self.node.own_bus() == self.buses_above().secondary
    }

    #[tactic(auto, unfolding(rules::specs::Records::bus_order_fine))]
    pub fn bus_order_fine(self) -> bool
        ensures { result ≡ bus_order_fine self.entry.node.bytes.now self.entry.node.index }
    {
        let below = self.node.bus_range();
        let above = self.buses_above();
        !self.node.is_bridge()
            || (self.node.own_bus() < below.secondary
                && below.secondary <= below.subordinate
                && below.subordinate <= above.subordinate)
    }
}

impl Pair<'_> {
    // Most pairs are told apart by one comparison.
    #[tactic(auto, unfolding(rules::specs::Records::buses_meet))]
    pub fn buses_meet(self) -> bool
        ensures { result ≡ buses_meet self.entry.one.bytes.now self.entry.one.index self.entry.other.index }
    {
        let one = self.one.bus_range();
        let other = self.other.bus_range();
        one.secondary <= other.subordinate
            && other.secondary <= one.subordinate
            && self.one.is_bridge()
            && self.other.is_bridge()
    }

    // Most pairs are told apart by these two bytes.
    #[tactic(auto, unfolding(rules::specs::Records::numbers_meet))]
    pub fn numbers_meet(self) -> bool
        ensures { result ≡ numbers_meet self.entry.one.bytes.now self.entry.one.index self.entry.other.index }
    {
        (self.one.port_number() == self.other.port_number()
            || self.one.devfn() == self.other.devfn())
            && self.one.is_port()
            && self.other.is_port()
    }
}

// Ranges of buses.
ghost use Rattle.std.specs.Prelude.{◌≡◌};
ghost use Rattle.rules.specs.Bytes.{within};

use rules::Bus;

// The buses from the secondary to the subordinate.
#[derive(Clone, Copy, Debug, PartialEq, Eq)]
pub struct BusRange {
    pub secondary: Bus,
    pub subordinate: Bus,
}

impl BusRange {
    pub fn contains(self, bus: Bus) -> bool
        ensures { result ≡ within self.secondary.0 bus.0 self.subordinate.0 }
    {
        self.secondary <= bus && bus <= self.subordinate
    }
}

// When a record is faulty, and the lowest that is.
ghost use Rattle.std.specs.Prelude.{◌≡◌, ◌≤◌, length};
ghost use Rattle.rules.specs.Snapshot as snapshot;
ghost use Rattle.rules.specs.Snapshot.{base};
ghost use Rattle.rules.specs.Records.{fine, lowest_faulty};
ghost use Rattle.records.specs.Parts.{fine_alone, Earlier};

use crate::parents::{Placed, blank_fine, kind_fine};
use crate::ranges::{own_ranges_apart, ranges_fine};
use crate::registers::registers_fine;
use crate::siblings::Next;
use layout::record::Record;
use layout::snapshot::Snapshot;

// The rules past the second read the parent's record, which the second shows to be an earlier one.
#[tactic(auto, unfolding(crate::specs::Parts::fine_alone))]
fn fine_alone(r: Record<'_>) -> bool
    ensures { result ≡ fine_alone r.entry.bytes.now r.entry.index }
{
    if !kind_fine(r) {
        return false;
    }
    match Placed::of(r) {
        None => false,
        Some(placed) => {
            blank_fine(r)
                && placed.own_bus_fine()
                && placed.bus_order_fine()
                && ranges_fine(r)
                && own_ranges_apart(r)
                && placed.nested_fine()
                && registers_fine(r)
        }
    }
}

// A record is held against earlier ones once it and they are known to be right by themselves.
pub fn fine(r: Record<'_>) -> bool
    requires { Earlier r.bytes.now r.index }
    ensures { result ≡ fine r.entry.bytes.now r.entry.index }
{
    fine_alone(r) && Next { node: r }.apart()
}

// The search has come to a record only where none before it is faulty.
pub fn lowest_faulty(s: Snapshot<'_>) -> Option<u16>
    requires { base (snapshot.count s.bytes.now) ≤ length s.bytes.now }
    ensures { result ≡ lowest_faulty s.entry.bytes.now }
{
    (0..s.count()).find(|i| !fine(s.record(*i)))
}

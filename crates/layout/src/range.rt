// Ranges of addresses.
ghost use Rattle.std.specs.Prelude.{◌≡◌, ◌&&◌, not, leb};
ghost use Rattle.rules.specs.Snapshot as snapshot;

use rules::Range;

// A closed range is exactly (1, 0).
pub const CLOSED: Range = Range { first: 1, last: 0 };

pub fn closed(first: u64, last: u64) -> bool
    ensures { result ≡ snapshot.closed first last }
{
    (first == 1) & (last == 0)
}

pub fn is_open(range: Range) -> bool
    ensures { result ≡ not (snapshot.closed range.first range.last) }
{
    !closed(range.first, range.last)
}

// The address lies between the ends, both with it, as `BusRange::contains` by another definition. A
// closed range, (1, 0), has none there.
pub fn contains(range: Range, address: u64) -> bool
    ensures { result ≡ (leb range.first address && leb address range.last) }
{
    range.first <= address && address <= range.last
}

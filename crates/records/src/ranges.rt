// Rules of address ranges: what a node may have, that no two overlap, and that each lies in a window.
ghost use Rattle.std.specs.Prelude.{◌≡◌, true, ◌≤◌, ◌<◌};
ghost use Rattle.rules.specs.Below.{any_below, all_below};
ghost use Rattle.rules.specs.Records.{window_fine, range_fine, ranges_fine, overlap, own_ranges_apart, ranges_meet};
ghost use Rattle.rules.specs.Records.{inside, nested_fine};
ghost use Rattle.records.specs.Parts.{open_overlap, in_window, range_nested};

use crate::pair::Pair;
use crate::parents::Placed;
use layout::range::{closed, is_open};
use layout::record::Record;
use rules::Range;

fn window_fine(k: u16, range: Range) -> bool
    ensures { result ≡ window_fine k range.first range.last }
{
    k < 2
        && range.first <= range.last
        && range.first % 0x100000 == 0
        && range.last % 0x100000 == 0xFFFFF
        && (k != 0 || range.last < 0x100000000)
}

#[tactic(auto, unfolding(rules::specs::Records::range_fine))]
fn range_fine(r: Record<'_>, k: u16) -> bool
    requires { k < 6 }
    ensures { result ≡ range_fine r.entry.bytes.now r.entry.index k }
{
    let range = r.range(k);
    if closed(range.first, range.last) {
        return true;
    }
    if r.is_bridge() {
        window_fine(k, range)
    } else {
        numbers::span_fine(range.first, range.last)
    }
}

pub fn ranges_fine(r: Record<'_>) -> bool
    ensures { result ≡ ranges_fine r.entry.bytes.now r.entry.index }
{
    (0..6).all(|k| range_fine(r, k))
}

// Both ranges are open and have an address in common. Most pairs are told apart by one comparison.
fn overlap(a: Range, b: Range) -> bool
    ensures { result ≡ open_overlap a b }
{
    a.first <= b.last && b.first <= a.last && is_open(a) && is_open(b)
}

// The window is open, and the range lies between its ends.
fn inside(range: Range, window: Range) -> bool
    ensures { result ≡ in_window range window }
{
    is_open(window) && window.first <= range.first && range.last <= window.last
}

impl Pair<'_> {
    // Range k of one overlaps range m of the other: numbers below 6, as `(0..6)` gives them.
    #[tactic(auto, unfolding(rules::specs::Records::overlap))]
    fn overlap(self, k: u16, m: u16) -> bool
        requires { (k < 6) × (m < 6) }
        ensures { result ≡ overlap self.entry.one.bytes.now self.entry.one.index k self.entry.other.index m }
    {
        overlap(self.one.range(k), self.other.range(m))
    }

    // Range k of one overlaps one of the first n of the other: a closed range is done at once.
    fn overlaps(self, k: u16, n: u16) -> bool
        requires { (k < 6) × (n ≤ 6) }
        ensures { result
            ≡ any_below n (overlap self.entry.one.bytes.now self.entry.one.index k self.entry.other.index) }
    {
        is_open(self.one.range(k)) && (0..n).any(|m| self.overlap(k, m))
    }

    // Of bridges no range but the two windows is open.
    pub fn ranges_meet(self) -> bool
        requires one { ranges_fine self.one.bytes.now self.one.index ≡ true }
        requires other { ranges_fine self.other.bytes.now self.other.index ≡ true }
        ensures { result ≡ ranges_meet self.entry.one.bytes.now self.entry.one.index self.entry.other.index }
    {
        if self.one.is_bridge() && self.other.is_bridge() {
            return (0..2).any(|k| self.overlaps(k, 2));
        }
        (0..6).any(|k| self.overlaps(k, 6))
    }

    // Range k of one is closed or lies inside one of the two windows of the other.
    #[tactic(auto, unfolding(rules::specs::Records::inside, rules::specs::Below::any_below))]
    fn range_nested(self, k: u16) -> bool
        requires { k < 6 }
        ensures { result ≡ range_nested self.entry.one.bytes.now self.entry.one.index self.entry.other.index k }
    {
        let range = self.one.range(k);
        !is_open(range) || inside(range, self.other.range(0)) || inside(range, self.other.range(1))
    }

    fn ranges_nested(self) -> bool
        ensures { result
            ≡ all_below 6 (range_nested self.entry.one.bytes.now self.entry.one.index self.entry.other.index) }
    {
        (0..6).all(|k| self.range_nested(k))
    }
}

// No range overlaps one before it.
pub fn own_ranges_apart(r: Record<'_>) -> bool
    ensures { result ≡ own_ranges_apart r.entry.bytes.now r.entry.index }
{
    let itself = Pair { one: r, other: r };
    !(0..6).any(|k| itself.overlaps(k, k))
}

impl Placed<'_> {
    #[tactic(auto, unfolding(rules::specs::Records::nested_fine))]
    pub fn nested_fine(self) -> bool
        ensures { result ≡ nested_fine self.entry.node.bytes.now self.entry.node.index }
    {
        match self.above() {
            None => true,
            Some(above) => Pair {
                one: self.node,
                other: above,
            }
            .ranges_nested(),
        }
    }
}

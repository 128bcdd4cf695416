// A record's fields, a reader to each.
ghost use Rattle.std.specs.Prelude.{◌≡◌, ◌+◌, ◌*◌, ◌≤◌, ◌<◌};
ghost use Rattle.rules.specs.Bytes.{byte, le};
ghost use Rattle.rules.specs.Snapshot as snapshot;
ghost use Rattle.rules.specs.Snapshot.{HasRecord, base};
ghost use Rattle.rules.specs.Fabric as fabric;
ghost use Rattle.rules.specs.Records.{zeros};
ghost use Rattle.layout.specs.Kind.{kind_of, is_kind};

use crate::acs::Acs;
use crate::buses::BusRange;
use crate::kind::{Kind, UnknownKind};
use crate::kinds::{is_bridge, is_port};
use crate::{acs, range};
use numbers::{LittleEndian, le};
use rules::{Bus, PortNumber, Range};

// Record number `index` of a snapshot, whose bytes are there.
#[derive(Clone, Copy)]
pub struct Record<'a> {
    pub bytes: &'a [u8],
    pub index: u16,
    pub ghost there: { HasRecord bytes.now index },
}

impl<'a> Record<'a> {
    // Where byte `offset` of the record stands.
    fn place(self, offset: usize) -> usize
        requires { offset ≤ 144 }
        ensures { result ≡ base self.entry.index + offset }
    {
        24 + 144 * usize::from(self.index) + offset
    }

    fn byte(self, offset: usize) -> u8
        requires { offset < 144 }
        ensures { result ≡ byte self.entry.bytes.now (base self.entry.index + offset) }
    {
        self.bytes[self.place(offset)]
    }

    fn number<T: LittleEndian>(self, offset: usize) -> T
        requires { offset + T.width ≤ 144 }
        ensures { T.number result ≡ le T.width self.entry.bytes.now (base self.entry.index + offset) }
    {
        le(self.bytes, self.place(offset))
    }

    // The n bytes from byte `offset` of the record on are zero.
    pub fn is_zero(self, offset: usize, n: usize) -> bool
        requires { offset + n ≤ 144 }
        ensures { result ≡ zeros self.entry.bytes.now (base self.entry.index + offset) n }
    {
        numbers::is_zero(self.bytes, self.place(offset), n)
    }

    // A reader for each field: what they share is `byte` and `number`, and they differ in an offset and
    // in the definition that they meet.
    pub fn kind(self) -> Result<Kind, UnknownKind>
        ensures { result ≡ kind_of (snapshot.kind self.entry.bytes.now self.entry.index) }
    {
        Kind::try_from(self.byte(0))
    }

    // The record is of this kind.
    pub fn is(self, kind: Kind) -> bool
        ensures { result ≡ is_kind kind (snapshot.kind self.entry.bytes.now self.entry.index) }
    {
        self.kind() == Ok(kind)
    }

    pub fn is_port(self) -> bool
        ensures { result ≡ snapshot.is_port (snapshot.kind self.entry.bytes.now self.entry.index) }
    {
        is_port(self.byte(0))
    }

    pub fn is_bridge(self) -> bool
        ensures { result ≡ snapshot.is_bridge (snapshot.kind self.entry.bytes.now self.entry.index) }
    {
        is_bridge(self.byte(0))
    }

    pub fn port_number(self) -> PortNumber
        ensures { result.0 ≡ snapshot.port_number self.entry.bytes.now self.entry.index }
    {
        PortNumber(self.byte(1))
    }

    // The parent's index.
    pub fn parent(self) -> u16
        ensures { result ≡ snapshot.parent self.entry.bytes.now self.entry.index }
    {
        self.number(2)
    }

    pub fn own_bus(self) -> Bus
        ensures { result.0 ≡ snapshot.own_bus self.entry.bytes.now self.entry.index }
    {
        Bus(self.byte(4))
    }

    // Device and function.
    pub fn devfn(self) -> u8
        ensures { result ≡ snapshot.devfn self.entry.bytes.now self.entry.index }
    {
        self.byte(5)
    }

    pub fn secondary(self) -> Bus
        ensures { result.0 ≡ snapshot.secondary self.entry.bytes.now self.entry.index }
    {
        Bus(self.byte(6))
    }

    pub fn subordinate(self) -> Bus
        ensures { result.0 ≡ snapshot.subordinate self.entry.bytes.now self.entry.index }
    {
        Bus(self.byte(7))
    }

    // The buses below the record.
    pub fn bus_range(self) -> BusRange
        ensures secondary { result.secondary.0 ≡ snapshot.secondary self.entry.bytes.now self.entry.index }
        ensures subordinate { result.subordinate.0 ≡ snapshot.subordinate self.entry.bytes.now self.entry.index }
    {
        BusRange {
            secondary: self.secondary(),
            subordinate: self.subordinate(),
        }
    }

    pub fn capability(self) -> Acs
        ensures { result.0 ≡ snapshot.capability self.entry.bytes.now self.entry.index }
    {
        Acs(self.number(8))
    }

    pub fn control(self) -> Acs
        ensures { result.0 ≡ snapshot.control self.entry.bytes.now self.entry.index }
    {
        Acs(self.number(10))
    }

    // The peer's bit of the Egress Control Vector.
    pub fn vector_bit(self, peer: PortNumber) -> bool
        ensures { result ≡ snapshot.vector_bit self.entry.bytes.now self.entry.index peer.0 }
    {
        acs::vector_bit(self.bytes, self.place(16), self.capability().size(), peer)
    }

    // Ranges have numbers below 6, and no type for that: `(0..6).any(..)` hands its closure a number, and
    // that it is below 6 is found at each call.
    pub fn range(self, k: u16) -> Range
        requires { k < 6 }
        ensures first { result.first ≡ snapshot.first self.entry.bytes.now self.entry.index k }
        ensures last { result.last ≡ snapshot.last self.entry.bytes.now self.entry.index k }
    {
        let at = 48 + 16 * usize::from(k);
        Range {
            first: self.number(at),
            last: self.number(at + 8),
        }
    }

    // The address is in open range k.
    pub fn in_range(self, a: u64, k: u16) -> bool
        requires { k < 6 }
        ensures { result ≡ fabric.in_range self.entry.bytes.now self.entry.index a k }
    {
        range::contains(self.range(k), a)
    }

    // The address is in an open range; most often it is in the first.
    pub fn holds(self, a: u64) -> bool
        ensures { result ≡ fabric.holds self.entry.bytes.now self.entry.index a }
    {
        (0..6).any(|k| self.in_range(a, k))
    }
}

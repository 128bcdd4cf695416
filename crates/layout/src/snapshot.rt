// The header's fields, and the records behind it.
ghost use Rattle.std.specs.Prelude.{◌≡◌, ◌≤◌, ◌<◌, length};
ghost use Rattle.rules.specs.Bytes.{bit};
ghost use Rattle.rules.specs.Snapshot as snapshot;
ghost use Rattle.rules.specs.Snapshot.{HasRecord};

use crate::record::Record;

// A snapshot whose 24 bytes of header are there.
#[derive(Clone, Copy)]
pub struct Snapshot<'a> {
    pub bytes: &'a [u8],
    pub ghost headed: { 24 ≤ length bytes.now },
}

const MARK: [u8; 3] = [b'A', b'C', b'S'];

// The three-byte mark stands at the start: compared byte by byte on reading, as document 01 asks.
pub fn has_mark(s: &[u8]) -> bool
    requires { 3 ≤ length s.now }
    ensures { result ≡ snapshot.marked s.now }
{
    s[0] == MARK[0] && s[1] == MARK[1] && s[2] == MARK[2]
}

impl<'a> Snapshot<'a> {
    // A reader for each field of the header: they differ in an offset, and in the definition that they
    // meet.
    pub fn flags(self) -> u8
        ensures { result ≡ snapshot.flags self.entry.bytes.now }
    {
        self.bytes[3]
    }

    // Flag bit k is set.
    fn flag(self, k: u8) -> bool
        requires { k < 8 }
        ensures { result ≡ bit k (snapshot.flags self.entry.bytes.now) }
    {
        (self.flags() >> k) % 2 == 1
    }

    // Root ports may reach each other.
    pub fn roots_reach(self) -> bool
        ensures { result ≡ snapshot.roots_reach self.entry.bytes.now }
    {
        self.flag(0)
    }

    // Redirected request validation reflects, else it blocks.
    pub fn validation_reflects(self) -> bool
        ensures { result ≡ snapshot.validation_reflects self.entry.bytes.now }
    {
        self.flag(1)
    }

    pub fn version(self) -> u16
        ensures { result ≡ snapshot.version self.entry.bytes.now }
    {
        numbers::le(self.bytes, 4)
    }

    pub fn count(self) -> u16
        ensures { result ≡ snapshot.count self.entry.bytes.now }
    {
        numbers::le(self.bytes, 6)
    }

    pub fn taken(self) -> u64
        ensures { result ≡ snapshot.taken self.entry.bytes.now }
    {
        numbers::le(self.bytes, 8)
    }

    pub fn good_until(self) -> u64
        ensures { result ≡ snapshot.good_until self.entry.bytes.now }
    {
        numbers::le(self.bytes, 16)
    }

    pub fn record(self, index: u16) -> Record<'a>
        requires { HasRecord self.bytes.now index }
        ensures bytes { result.bytes.now ≡ self.entry.bytes.now }
        ensures index { result.index ≡ index }
    {
        Record {
            bytes: self.bytes,
            index,
        }
    }
}

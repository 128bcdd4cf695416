// The ACS registers by value, and the Egress Control Vector, which only a Port Number reads.
ghost use Rattle.std.specs.Prelude.{◌≡◌, ◌&&◌, ◌+◌, ◌≤◌, ◌<◌, ◌/◌, ◌%◌, ltb, length};
ghost use Rattle.rules.specs.Bytes.{byte, bit};
ghost use Rattle.rules.specs.Snapshot.{vector_size};

use rules::PortNumber;

// A Capability or Control register, with the paper's bit numbers, as constants by document 01's wish.
#[derive(Clone, Copy, Debug, PartialEq, Eq)]
pub struct Acs(pub u16);

impl Acs {
    pub const V: u16 = 0;

    pub const B: u16 = 1;

    pub const R: u16 = 2;

    pub const C: u16 = 3;

    pub const U: u16 = 4;

    pub const E: u16 = 5;

    pub const T: u16 = 6;

    // Every bit of a vector: all that a size field of 00h stands for.
    pub const FULL: u16 = 256;

    // Bit k is set.
    pub fn on(self, k: u16) -> bool
        requires { k < 16 }
        ensures { result ≡ bit k self.0 }
    {
        (self.0 >> k) % 2 == 1
    }

    // Of a Capability: how many bits its vector has.
    pub fn size(self) -> u16
        ensures { result ≡ vector_size self.0 }
    {
        match self.0 / 256 {
            0 if self.on(Acs::E) => Acs::FULL,
            field => field,
        }
    }
}

// The bit of a peer's Port Number in the vector of `size` bits that starts at `at`.
pub fn vector_bit(s: &[u8], at: usize, size: u16, peer: PortNumber) -> bool
    requires { at + 32 ≤ length s.now }
    ensures { result ≡ (ltb peer.0 size && bit (peer.0 % 8) (byte s.now (at + peer.0 / 8))) }
{
    let k = peer.0;
    let byte = s[at + usize::from(k / 8)];
    u16::from(k) < size && (byte >> (k % 8)) % 2 == 1
}

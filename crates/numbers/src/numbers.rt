// Numbers in bytes, read and written; bytes copied, and runs of zero bytes.
ghost use Rattle.std.specs.Prelude.{◌≡◌, ◌+◌, ◌≤◌, length, ℕ};
ghost use Rattle.rules.specs.Bytes.{byte, le, le_bytes, bytes_from, laid};
ghost use Rattle.rules.specs.Records.{zeros};

// A number that `width` bytes write, the lowest first.
pub trait LittleEndian {
    ghost width: { ℕ };

    ghost number: { Self → ℕ };

    // The number that stands first in these bytes.
    fn read(s: &[u8]) -> Self
        requires { width ≤ length s.now }
        ensures { number result ≡ le width s.now 0 };
}

impl LittleEndian for u16 {
    ghost width = { 2 };

    ghost number = { λ x. x };

    fn read(s: &[u8]) -> u16 {
        u16::from_le_bytes([s[0], s[1]])
    }
}

impl LittleEndian for u32 {
    ghost width = { 4 };

    ghost number = { λ x. x };

    fn read(s: &[u8]) -> u32 {
        u32::from_le_bytes([s[0], s[1], s[2], s[3]])
    }
}

impl LittleEndian for u64 {
    ghost width = { 8 };

    ghost number = { λ x. x };

    fn read(s: &[u8]) -> u64 {
        u64::from_le_bytes([s[0], s[1], s[2], s[3], s[4], s[5], s[6], s[7]])
    }
}

// The number that the bytes from `at` on write, as many as its type takes.
#[tactic(auto, using(crate::proofs::NumbersLaws::le_from))]
pub fn le<T: LittleEndian>(s: &[u8], at: usize) -> T
    requires { at + T.width ≤ length s.now }
    ensures { T.number result ≡ le T.width s.now at }
{
    T::read(&s[at..])
}

// Puts bytes in the place of those from `at` on.
#[tactic(auto, using(crate::proofs::Laid::put_laid))]
fn put(b: &mut [u8], at: usize, part: &[u8])
    requires { at + length part.now ≤ length b.old }
    ensures { b.new ≡ laid b.old at part.now }
{
    b[at..at + part.len()].copy_from_slice(part);
}

// Puts a number into the eight bytes from `at` on, little-endian.
#[tactic(auto, using(crate::proofs::NumbersLaws::eight_bytes))]
pub fn put_le_u64(b: &mut [u8], at: usize, x: u64)
    requires { at + 8 ≤ length b.old }
    ensures { b.new ≡ laid b.old at (le_bytes 8 x) }
{
    put(b, at, &x.to_le_bytes());
}

// The byte at `at`, and 0 past the end.
fn byte_or_0(s: &[u8], at: usize) -> u8
    ensures { result ≡ byte s.now at }
{
    if at < s.len() { s[at] } else { 0 }
}

// Copies n bytes of `s` from `from` on to the place `at` of b; past the end of s they are 0. One by one, by
// a number that counts them: a run whose length is known only when it runs is copied or filled by a call of
// C's `memmove` or `memset`, and takes longer. A place that fits no number is past every end.
pub fn put_bytes(b: &mut [u8], at: usize, n: usize, s: &[u8], from: usize)
    requires { at + n ≤ length b.old }
    ensures { b.new ≡ laid b.old at (bytes_from n s.now from) }
{
    for k in 0..n {
        b[at + k] = byte_or_0(s, from.saturating_add(k));
    }
}

// The n bytes from `at` on are zero. Each of them is looked at, since wide loads beat an early exit.
pub fn is_zero(s: &[u8], at: usize, n: usize) -> bool
    requires { at + n ≤ length s.now }
    ensures { result ≡ zeros s.now at n }
{
    s[at..at + n]
        .iter()
        .fold(true, |blank, b| blank & (*b == 0))
}

// A header's fields, big-endian, a reader to each.
ghost use Rattle.std.specs.Prelude.{◌≡◌, None, MatchOption, ◌+◌, ◌≤◌, length};
ghost use Rattle.rules.specs.Bytes.{byte, be};
ghost use Rattle.rules.specs.Tlp as rule;
ghost use Rattle.tlp.specs.Form.{byte_of};
ghost use Rattle.tlp.specs.Header.{header_read, target_read};

use crate::form::Form;
use rules::{Bus, Target, Tlp};

// A header of the length that its form asks for.
#[derive(Clone, Copy)]
pub struct Header<'a> {
    bytes: &'a [u8],
    form: Form,
    ghost begins: { byte bytes.now 0 ≡ byte_of form },
    ghost whole: { length bytes.now ≡ rule.header_length (byte_of form) },
    ghost twelve: { 12 ≤ length bytes.now },
}

// n bytes, big-endian.
fn be(s: &[u8], at: usize, n: usize) -> u64
    requires { (n ≤ 8) × (at + n ≤ length s.now) }
    ensures { result ≡ be n s.now at }
{
    s[at..at + n]
        .iter()
        .fold(0, |sum: u64, byte| sum << 8 | u64::from(*byte))
}

impl<'a> Header<'a> {
    // The header that a slice is, whole: no byte is missing and none is left over.
    pub fn new(bytes: &'a [u8]) -> Option<Header<'a>>
        ensures { MatchOption result (header_read bytes.now ≡ None) (λ x. x.bytes.now ≡ bytes.now) }
    {
        let form = Form::try_from(*bytes.first()?).ok()?;
        if bytes.len() == form.header_length() {
            Some(Header { bytes, form })
        } else {
            None
        }
    }

    // The length in doublewords, where 0 means 1,024.
    fn doublewords(self) -> u16
        ensures { result ≡ rule.doublewords self.entry.bytes.now }
    {
        let n = u16::from_be_bytes([self.bytes[2] % 4, self.bytes[3]]);
        if n == 0 { 1024 } else { n }
    }

    // The address, with its low two bits taken as 0; one rule for both lengths.
    fn address(self) -> u64
        ensures { result ≡ rule.address self.entry.bytes.now }
    {
        be(self.bytes, 8, self.form.address_bytes()) / 4 * 4
    }

    // From its address on, the request's bytes go past a boundary of 4,096.
    #[tactic(auto, unfolding(rules::specs::Tlp::crosses))]
    fn crosses(self, first: u64) -> bool
        requires { first ≡ rule.address self.bytes.now }
        ensures { result ≡ rule.crosses self.entry.bytes.now }
    {
        4096 < first % 4096 + 4 * u64::from(self.doublewords())
    }

    // A completion goes to an ID, a request to its address, unless it crosses a boundary.
    #[tactic(auto, unfolding(crate::specs::Header::target_read, rules::specs::Tlp::target_of))]
    fn target(self) -> Option<Target>
        ensures { result ≡ target_read self.entry.bytes.now }
    {
        if self.form.is_completion() {
            return Some(Target::Id(Bus(self.bytes[8]), self.bytes[9]));
        }
        let first = self.address();
        if self.crosses(first) {
            return None;
        }
        Some(Target::Address(first))
    }

    // What routing asks of it, or that it is bad.
    pub fn tlp(self) -> Option<Tlp>
        ensures { result ≡ header_read self.entry.bytes.now }
    {
        let target = self.target()?;
        let request = self.form.is_request();
        let read = self.form.is_read();
        Some(Tlp {
            request,
            completion_owed: read,
            straight: (self.bytes[2] >> 5) % 2 == 1,
            address_type: self.bytes[2] / 4 % 4,
            requester_bus: Bus(self.bytes[4]),
            target,
        })
    }
}

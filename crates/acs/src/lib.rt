// The calls of the C interface: check, route and fill on numbers and byte slices, each answer one
// word. `acs_c` exports them.
#![tactic(auto)]

ghost use Rattle.std.specs.Prelude.{◌≡◌};
ghost use Rattle.rules.specs.Word.{number_of, refusal_fields, end_fields, word_of, fields};
ghost use Rattle.acs.specs.Promise.{answer_word, word_of_check, word_of_fill, Judged, Routed, Filled};

use config::fill::fill;
use layout::COMPLEX;
use route::answer::route;
use rules::{Ended, Extent, Outcome, Refused};
use snapshot::check::check;

// The eight bytes of the answer word, from the low one up, as the sum that its definition is: numbers,
// since this is what C is given.
fn word(kind: u8, detail: u8, node: u16, count: u16, abort: u8) -> u64
    ensures { result ≡ word_of (fields kind detail node count abort) }
{
    u64::from(kind)
        + 0x100 * u64::from(detail)
        + 0x10000 * u64::from(node)
        + 0x100000000 * u64::from(count)
        + 0x1000000000000 * u64::from(abort)
}

fn refused_word(x: Refused) -> u64
    ensures { result ≡ word_of (refusal_fields (number_of x.why) x.index) }
{
    word(6, x.why.into(), x.index, 0, 0)
}

fn end_word(x: Ended) -> u64
    ensures { result ≡ word_of (end_fields x.end x.count) }
{
    match x.end {
        Outcome::Delivered(i, checked) => word(checked.into(), 0, i, x.count, 0),
        Outcome::Host => word(2, 0, COMPLEX, x.count, 0),
        Outcome::Unclaimed(i) => word(3, 0, i, x.count, 0),
        Outcome::Undefined(i) => word(4, 0, i, x.count, 0),
        Outcome::Violated(l, i, abort) => word(5, l.into(), i, x.count, abort.into()),
    }
}

fn answer_word(a: Result<Ended, Refused>) -> u64
    ensures { result ≡ answer_word a }
{
    a.map_or_else(refused_word, end_word)
}

fn check_word(c: Result<(), Refused>) -> u64
    ensures { result ≡ word_of_check c }
{
    c.map_or_else(refused_word, |()| 0)
}

fn fill_word(f: Result<Extent, Refused>) -> u64
    ensures { result ≡ word_of_fill f }
{
    match f {
        Ok(acs) => word(0, 0, acs.offset, acs.length, 0),
        Err(refused) => refused_word(refused),
    }
}

// 0 for an accepted snapshot, else the refusal word.
pub fn acs_check(snapshot: &[u8], time: u64) -> u64
    ensures { Judged snapshot.now time result }
{
    check_word(check(snapshot, time))
}

// The answer word, with the hops from the start of `hops`; a refusal leaves every byte as it was.
pub fn acs_route(snapshot: &[u8], time: u64, origin: u16, header: &[u8], hops: &mut [u8]) -> u64
    ensures { Routed snapshot.now time origin header.now hops.old result hops.new }
{
    answer_word(route(snapshot, time, origin, header, hops))
}

// The word with the offset and the length of the ACS structure, and the record filled from the image;
// a refusal leaves every byte of the record as it was.
pub fn acs_fill(image: &[u8], into: &mut [u8]) -> u64
    ensures { Filled image.now into.old result into.new }
{
    fill_word(fill(image, into))
}

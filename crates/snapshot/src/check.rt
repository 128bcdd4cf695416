// The refusals 1 to 4, in their exact order.
ghost use Rattle.std.specs.Prelude.{◌≡◌, ◌≤◌, length, is_some, IfSome, IfOk, IfErr, OnOk};
ghost use Rattle.rules.specs.Snapshot.{base, count};
ghost use Rattle.rules.specs.Refuse as refuse;
ghost use Rattle.rules.specs.Refuse.{answered, refused};
ghost use Rattle.rules.specs.Records.{lowest_faulty};
ghost use Rattle.rules.specs.Word.{number_of, verdict_of};
ghost use Rattle.snapshot.specs.Parts.{after, header_verdict};

use layout::fabric::Fabric;
use layout::snapshot::{Snapshot, has_mark};
use records::faulty::lowest_faulty;
use rules::{Refusal, Refused};

// The snapshot, where its header is there and begins with the mark.
#[tactic(auto, unfolding(rules::specs::Refuse::begun))]
fn begun<'a>(bytes: &'a [u8]) -> Option<Snapshot<'a>>
    ensures begun { is_some result ≡ refuse.begun bytes.now }
    ensures bytes { IfSome result (λ s. s.bytes.now ≡ bytes.now) }
{
    if bytes.len() < 24 || !has_mark(bytes) {
        return None;
    }
    Some(Snapshot { bytes })
}

#[tactic(auto, unfolding(rules::specs::Refuse::known_version))]
fn known_version(s: Snapshot<'_>) -> bool
    ensures { result ≡ refuse.known_version s.entry.bytes.now }
{
    s.version() == 1
}

#[tactic(auto, unfolding(rules::specs::Refuse::well_made))]
fn well_made(s: Snapshot<'_>) -> bool
    ensures { result ≡ refuse.well_made s.entry.bytes.now }
{
    s.flags() < 4
        && s.count() <= 256
        && s.taken() <= s.good_until()
        && s.bytes.len() == 24 + 144 * usize::from(s.count())
}

#[tactic(auto, unfolding(rules::specs::Refuse::in_time))]
fn in_time(s: Snapshot<'_>, time: u64) -> bool
    ensures { result ≡ refuse.in_time s.entry.bytes.now time }
{
    s.taken() <= time && time <= s.good_until()
}

// Refuses where a test does not hold.
fn require(holds: bool, why: Refusal) -> Result<(), Refusal>
    ensures { result ≡ after holds why (Ok tt) }
{
    if holds { Ok(()) } else { Err(why) }
}

// Refusals 2, the rest of 1, and 3, in their order.
#[tactic(auto, unfolding(crate::specs::Parts::header_verdict))]
fn check_header(s: Snapshot<'_>, time: u64) -> Result<(), Refusal>
    ensures { result ≡ header_verdict s.entry.bytes.now time }
{
    require(known_version(s), Refusal::Version)?;
    require(well_made(s), Refusal::Malformed)?;
    require(in_time(s, time), Refusal::Time)
}

// Refuses the lowest faulty record, where there is one.
fn require_faultless(s: Snapshot<'_>) -> Result<(), Refused>
    requires { base (count s.bytes.now) ≤ length s.bytes.now }
    ensures passes { OnOk result (lowest_faulty s.entry.bytes.now ≡ None) }
    ensures refuses { IfErr result (λ e. (e.why ≡ Refusal.Faulty) × (lowest_faulty s.entry.bytes.now ≡ Some e.index)) }
{
    let why = Refusal::Faulty;
    match lowest_faulty(s) {
        Some(index) => Err(Refused { why, index }),
        None => Ok(()),
    }
}

// The fabric that the bytes describe, where no test refuses them.
pub fn accept<'a>(bytes: &'a [u8], time: u64) -> Result<Fabric<'a>, Refused>
    ensures bytes { IfOk result (λ fabric. fabric.bytes.now ≡ bytes.now) }
    ensures accepted { OnOk result (refuse.verdict bytes.now time ≡ answered tt) }
    ensures refused { IfErr result (λ e. refuse.verdict bytes.now time ≡ refused (number_of e.why) e.index) }
{
    let snapshot = begun(bytes).ok_or(Refusal::Malformed)?;
    check_header(snapshot, time)?;
    require_faultless(snapshot)?;
    Ok(Fabric { bytes })
}

// What the snapshot is refused for, if anything.
pub fn check(s: &[u8], time: u64) -> Result<(), Refused>
    ensures { verdict_of result ≡ refuse.verdict s.now time }
{
    accept(s, time)?;
    Ok(())
}

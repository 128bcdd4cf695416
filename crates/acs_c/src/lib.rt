// The archive for C: each export is the call of `acs` with its promise.
#![tactic(auto)]

ghost use Rattle.acs.specs.Promise.{Judged, Routed, Filled};

// 0 for an accepted snapshot, else the refusal word.
#[unsafe(no_mangle)]
pub extern "C" fn acs_check(snapshot: &[u8], time: u64) -> u64
    ensures { Judged snapshot.now time result }
{
    acs::acs_check(snapshot, time)
}

// The answer word, with the hops from the start of `hops`; a refusal leaves every byte as it was.
#[unsafe(no_mangle)]
pub extern "C" fn acs_route(
    snapshot: &[u8],
    time: u64,
    origin: u16,
    header: &[u8],
    hops: &mut [u8],
) -> u64
    ensures { Routed snapshot.now time origin header.now hops.old result hops.new }
{
    acs::acs_route(snapshot, time, origin, header, hops)
}

// The word with the offset and the length of the ACS structure, and the record filled from the image;
// a refusal leaves every byte of the record as it was.
#[unsafe(no_mangle)]
pub extern "C" fn acs_fill(image: &[u8], into: &mut [u8]) -> u64
    ensures { Filled image.now into.old result into.new }
{
    acs::acs_fill(image, into)
}

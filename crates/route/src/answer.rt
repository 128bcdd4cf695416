// The whole answer: refusals 1 to 7 in their order, the walk that counts and the walk that writes.
ghost use Rattle.std.specs.Prelude.{◌≡◌, true, length, Ok};
ghost use Rattle.rules.specs.Refuse as refuse;
ghost use Rattle.route.specs.Parts.{Answers, trip, asked, finished};

use cover::Query;
use layout::fabric::Fabric;
use rules::{Ended, Refusal, Refused};
use snapshot::check::accept;
use tlp::read_header;
use walk::way::{Start, is_origin};

// Room for the 257 hops that no route exceeds.
pub const ROOM_FOR_ALL: usize = 1028;

// The hops, for which there is room. That their count fits 16 bits is proved.
fn write(start: Start<'_>, buffer: &mut [u8]) -> Ended
    requires { refuse.fits (trip start.query.bytes.now start.query.tlp start.origin) (length buffer.old) ≡ true }
    ensures { let q = start.entry.query in Answers (refuse.answered (trip q.bytes.now q.tlp start.entry.origin)) buffer.old (Ok result) buffer.new }
{
    let whole = start.hops(buffer);
    let end = whole.end;
    Ended {
        end,
        count: whole.hops as u16,
    }
}

// All hops have room in so many bytes. Room for the most hops there are needs no count.
fn has_room(start: Start<'_>, room: usize) -> bool
    ensures { let q = start.entry.query in result ≡ refuse.fits (trip q.bytes.now q.tlp start.entry.origin) room }
{
    if ROOM_FOR_ALL <= room {
        return true;
    }
    start.outcome().hops <= room / 4
}

// Refusal 7, or the hops.
fn finish(start: Start<'_>, buffer: &mut [u8]) -> Result<Ended, Refused>
    ensures { let q = start.entry.query in Answers (finished (trip q.bytes.now q.tlp start.entry.origin) (length buffer.old)) buffer.old result buffer.new }
{
    if !has_room(start, buffer.len()) {
        return Err(Refusal::Room.into());
    }
    Ok(write(start, buffer))
}

// Refusals 5 to 7, of a snapshot that was accepted.
pub fn ask(
    fabric: Fabric<'_>,
    origin: u16,
    header: &[u8],
    buffer: &mut [u8],
) -> Result<Ended, Refused>
    ensures { Answers (asked fabric.entry.bytes.now origin header.now (length buffer.old)) buffer.old result buffer.new }
{
    if !is_origin(fabric, origin) {
        return Err(Refusal::Origin.into());
    }
    match read_header(header) {
        Some(tlp) => {
            let query = Query::new(fabric, tlp);
            finish(Start { query, origin }, buffer)
        }
        None => Err(Refusal::Header.into()),
    }
}

// The route of one TLP: what it comes to, and its hops from the start of the buffer. A refusal leaves
// every byte of the buffer as it was.
pub fn route(
    s: &[u8],
    time: u64,
    origin: u16,
    header: &[u8],
    buffer: &mut [u8],
) -> Result<Ended, Refused>
    ensures { Answers (refuse.result s.now time origin header.now (length buffer.old)) buffer.old result buffer.new }
{
    let fabric = accept(s, time)?;
    ask(fabric, origin, header, buffer)
}

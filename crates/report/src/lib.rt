// The text that `acsroute` prints for its input, byte for byte.
#![tactic(auto)]

mod frame;

ghost use Rattle.std.specs.Prelude.{◌≡◌, ◌++◌, ◌+◌, ◌*◌, ◌≤◌, length, take, drop};
ghost use Rattle.report.specs.Framing.{header_start, header_length, snapshot_length, snapshot_of, answer_to};
ghost use Rattle.text.specs.Text.{newline, head_text, end_text, hops_in, answer_text};
ghost use Rattle.report.specs.Printed.{said, printed};
ghost use Rattle.text.specs.Room.{put};

use crate::frame::read_frame;
use numbers::le;
use route::answer::{ROOM_FOR_ALL, route};
use rules::Outcome;
use text::Text;

// The two lines of an answer: the head, then the outcome with its hops.
#[tactic(auto, using(text::proofs::Putting::put_both))]
fn push_trip(text: &mut Text, s: &[u8], end: Outcome, hops: &[u8])
    requires { 8 ≤ length s.now }
    ensures line { text.new ≡ put text.old (head_text s.now ++ (newline ++ (end_text end ++ hops_in hops.now))) }
    ensures short { length (head_text s.now ++ (newline ++ (end_text end ++ hops_in hops.now)))
        ≤ 51 + 3 * length hops.now }
{
    text.push_head(s);
    text.push_str("\n");
    text.push_end(end);
    text.push_hops(hops);
}

// The answer to a whole input: the snapshot of this length from byte 2 on, now, origin, header length
// and header. A length is widened by `as`, which the definition's sums are then said of as they stand.
fn tell(text: &mut Text, input: &[u8], snapshot: u16)
    requires { (length input.now ≡ header_start input.now + header_length input.now)
        × (snapshot ≡ snapshot_length input.now) }
    ensures line { text.new ≡ put text.old (answer_text (snapshot_of input.now) (answer_to input.now)) }
    ensures short { length (answer_text (snapshot_of input.now) (answer_to input.now)) ≤ 3135 }
{
    let end = (snapshot as usize) + 2;
    let start = end + 11;
    let time = le(input, end);
    let origin = le(input, end + 8);
    let s = &input[2..end];
    let header = &input[start..];
    let mut hops = [0u8; ROOM_FOR_ALL];
    match route(s, time, origin, header, &mut hops) {
        Err(refused) => text.push_refusal(refused.why, refused.index),
        Ok(ended) => push_trip(text, s, ended.end, &hops[..4 * (ended.count as usize)]),
    }
}

// The text but for its last newline.
fn say(text: &mut Text, input: &[u8])
    ensures line { text.new ≡ put text.old (said input.now) }
    ensures short { length (said input.now) ≤ 3135 }
{
    match read_frame(input) {
        Some(snapshot) => tell(text, input, snapshot),
        None => text.push_str("input"),
    }
}

// The whole text at the start of `out`, and how long it is: the form in which README names it. It never wants more room, and no byte
// after it is written.
#[tactic(auto, using(crate::proofs::Telling::whole_printed))]
pub fn report(input: &[u8], out: &mut [u8; 4096]) -> usize
    ensures value { result ≡ length (printed input.now) }
    ensures out_after { out.new ≡ printed input.now ++ drop (length (printed input.now)) out.old }
    ensures upper_bound { (result ≤ length out.new) × (result ≡ length (take result out.new)) }
{
    let mut text = Text::new();
    say(&mut text, input);
    text.push_str("\n");
    let bytes = text.as_bytes();
    out[..bytes.len()].copy_from_slice(bytes);
    bytes.len()
}

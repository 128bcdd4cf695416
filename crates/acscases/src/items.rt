// An item: byte 0 the call, then its arguments; a slice is 4 bytes of length and its bytes. Of a query
// `report`'s text is printed, of any other call the answer word and the final bytes of its buffers.
use crate::STDOUT;
use crate::line::put_line;

// The most bytes of what an item lends.
const LENT: usize = 65536;

// What is printed for an item that is not well made.
pub fn bad() -> bool {
    io::write_all(STDOUT, b"input\n")
}

// Call 0, the query of `acsroute`.
fn query(input: &[u8]) -> bool {
    let mut text = io::buffer();
    let n = report::report(input, &mut text);
    io::write_all(STDOUT, &text[..n])
}

// The slice that the arguments begin with, and what follows it. (Of a `u32` no `usize` is made by
// `From`.)
fn next_slice(args: &[u8]) -> Option<(&[u8], &[u8])> {
    let (prefix, rest) = args.split_first_chunk::<4>()?;
    rest.split_at_checked(u32::from_le_bytes(*prefix) as usize)
}

// The two slices that the arguments are.
fn two_slices(args: &[u8]) -> Option<(&[u8], &[u8])> {
    let (first, rest) = next_slice(args)?;
    let (second, after) = next_slice(rest)?;
    if after.is_empty() {
        Some((first, second))
    } else {
        None
    }
}

// Call 2: the image, and the record that is filled from it.
fn fill(image: &[u8], given: &[u8]) -> bool {
    if given.len() > LENT {
        return bad();
    }
    let mut room = io::large_buffer();
    let record = &mut room[..given.len()];
    record.copy_from_slice(given);
    let word = acs::acs_fill(image, record);
    put_line(word, record)
}

// By the item's first byte, the number of its call.
pub fn answer(item: &[u8]) -> bool {
    match item.split_first() {
        Some((0, args)) => query(args),
        Some((2, args)) => match two_slices(args) {
            Some((image, given)) => fill(image, given),
            None => bad(),
        },
        _ => bad(),
    }
}

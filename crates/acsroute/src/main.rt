// Answers the one query on standard input. What it prints is `report`'s text.
#![tactic(auto)]

// Read and written by the kit's `io`, which stands on two declarations of C: std's stand on eight.
const STDIN: i32 = 0;

const STDOUT: i32 = 1;

// There is room for one byte more than the longest right input has: what is longer is not framed
// right either way.
fn main() {
    let mut input = [0u8; 65804];
    let length = io::read_full(STDIN, &mut input);
    let mut text = io::buffer();
    let n = report::report(&input[..length], &mut text);
    io::write_all(STDOUT, &text[..n]);
}

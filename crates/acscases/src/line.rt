// A line: the answer word in 16 hexadecimal digits, a blank, and two digits for each byte of a buffer.
use crate::STDOUT;

const DIGITS: [u8; 16] = *b"0123456789abcdef";

fn put_byte(x: u8) -> bool {
    let text = [DIGITS[usize::from(x / 16)], DIGITS[usize::from(x % 16)]];
    io::write_all(STDOUT, &text)
}

// Each byte is written, whatever became of those before it.
fn put_bytes(bytes: &[u8]) -> bool {
    let mut ok = true;
    for &x in bytes {
        ok = put_byte(x) && ok;
    }
    ok
}

// The bytes of the word, the highest first.
pub fn put_line(word: u64, bytes: &[u8]) -> bool {
    put_bytes(&word.to_be_bytes())
        && io::write_all(STDOUT, b" ")
        && put_bytes(bytes)
        && io::write_all(STDOUT, b"\n")
}

// Words and numbers put at any place of a buffer, where `Text` puts them at its end. What stands behind
// them stays.
ghost use Rattle.std.specs.Prelude.{length};
ghost use Rattle.text.specs.Text.{number};
ghost use Rattle.text.specs.Put.{Put};

use itoa::Buffer;

// The bytes of a word, as many as there is room for. The place after them.
pub fn put_word(out: &mut [u8; 4096], at: usize, word: &[u8]) -> usize
    ensures { Put (length word.now) out.old at word.now result out.new }
{
    if out.len() < at {
        return at;
    }
    let fitting = word.len().min(out.len() - at);
    out[at..at + fitting].copy_from_slice(&word[..fitting]);
    at + fitting
}

// The decimal digits of a number, with no leading zeros.
pub fn put_number(out: &mut [u8; 4096], at: usize, n: u16) -> usize
    ensures { Put 5 out.old at (number n) result out.new }
{
    let mut digits = Buffer::new();
    put_word(out, at, digits.format(n).as_bytes())
}

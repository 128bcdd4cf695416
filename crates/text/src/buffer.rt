// A text of fixed room, and what is put at its end: bytes, words, numbers.
ghost use Rattle.std.specs.Prelude.{◌≡◌, ◌≤◌, [], ◌∷◌, ◌++◌, length};
ghost use Rattle.text.specs.Text.{number};
ghost use Rattle.text.specs.Room.{put, room};

use arrayvec::ArrayVec;
use itoa::Buffer;
use std::marker::Model;

// The bytes put so far, 4,096 at most: what is put after these is cut off.
#[derive(Drop)]
pub struct Text {
    bytes: ArrayVec<u8, 4096>,
}

// Clauses see the bytes.
impl Model for Text {
    ghost use Rattle.std.specs.Prelude.{ℕ, List, ◌≤◌, length};
    ghost use Rattle.text.specs.Room.{room};

    ghost Value = { List ℕ };

    ghost view = { λ t. t.bytes.items };

    ghost invariant = { λ t. length t.bytes.items ≤ room };
}

impl Text {
    pub fn new() -> Text
        ensures { result ≡ [] }
    {
        Text {
            bytes: ArrayVec::new(),
        }
    }

    pub fn as_bytes(&self) -> &[u8]
        ensures bytes { result.now ≡ self.now }
        ensures fits { length self.now ≤ room }
    {
        self.bytes.as_slice()
    }

    // One byte, where there is room for it.
    #[tactic(auto, using(crate::proofs::Putting::put_whole, crate::proofs::Putting::put_full))]
    pub fn push_byte(&mut self, x: u8)
        ensures { self.new ≡ put self.old (x ∷ []) }
    {
        if !self.bytes.is_full() {
            self.bytes.push(x);
        }
    }

    // The bytes of a word, as many as there is room for.
    #[tactic(auto, using(crate::proofs::Putting::put_fitting))]
    pub fn push_str(&mut self, word: &str)
        ensures { self.new ≡ put self.old word.now }
    {
        let fitting = word.len().min(self.bytes.remaining_capacity());
        let bytes = &word.as_bytes()[..fitting];
        self.bytes.try_extend_from_slice(bytes).unwrap();
    }

    // The decimal digits of a number, with no leading zeros.
    #[tactic(auto, using(crate::proofs::Decimals::number_printed, crate::proofs::Decimals::number_short))]
    pub fn push_number(&mut self, n: u16)
        ensures digits { self.new ≡ put self.old (number n) }
        ensures short { length (number n) ≤ 5 }
    {
        let mut digits = Buffer::new();
        self.push_str(digits.format(n));
    }
}

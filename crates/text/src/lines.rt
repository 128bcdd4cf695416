// Hops, outcomes, refusals and the head put into the text. They are methods, and no `impl Display`:
// `write!` promises its bytes only where it returns `Ok`, and nothing promises that it does, while
// `report` promises its text on every input.
ghost use Rattle.std.specs.Prelude.{◌≡◌, ◌++◌, ◌*◌, ◌≤◌, length};
ghost use Rattle.rules.specs.declared.Outcome.TheVariants.{Delivered, Violated};
ghost use Rattle.rules.specs.Route.{hop};
ghost use Rattle.rules.specs.Word.{number_of};
ghost use Rattle.text.specs.Text as text;
ghost use Rattle.text.specs.Room.{put};

use crate::Text;
use layout::COMPLEX;
use numbers::le;
use rules::{Letter, Outcome, Refusal};

// Of a delivery: whether it was checked. This and the next choose between two words, as their
// definitions do.
fn checked_word(checked: bool) -> &'static str
    ensures { result.now ≡ text.checked_text checked }
{
    if checked { " checked" } else { " unvalidated" }
}

// Of a violation: whether it is a completer abort.
fn abort_word(aborts: bool) -> &'static str
    ensures { result.now ≡ text.abort_text aborts }
{
    if aborts { " abort" } else { " drop" }
}

// V, B, E, X.
fn letter_of(letter: Letter) -> u8
    ensures { result ≡ text.letter_of letter }
{
    match letter {
        Letter::Source => b'V',
        Letter::Translation => b'B',
        Letter::Egress => b'E',
        Letter::Validation => b'X',
    }
}

impl Text {
    // A word and a number.
    #[tactic(auto, using(crate::proofs::Putting::put_both))]
    fn push_named(&mut self, word: &str, n: u16)
        ensures line { self.new ≡ put self.old (word.now ++ text.number n) }
        ensures short { length (text.number n) ≤ 5 }
    {
        self.push_str(word);
        self.push_number(n);
    }

    // A hop as index:action, the action as the byte that stands in the buffer.
    #[tactic(auto, using(crate::proofs::Putting::put_both), unfolding(crate::specs::Text::hop_text))]
    fn push_hop(&mut self, index: u16, action: u8)
        ensures line { self.new ≡ put self.old (text.hop_text (hop index action)) }
        ensures short { length (text.hop_text (hop index action)) ≤ 12 }
    {
        self.push_named(" ", index);
        self.push_named(":", u16::from(action));
    }

    // The hops of a hop buffer, four bytes each.
    pub fn push_hops(&mut self, hops: &[u8])
        ensures line { self.new ≡ put self.old (text.hops_in hops.now) }
        ensures short { length (text.hops_in hops.now) ≤ 3 * length hops.now }
    {
        // Four bytes of the buffer at a time.
        for hop in hops.chunks_exact(4) {
            self.push_hop(le(hop, 0), hop[2]);
        }
    }

    #[tactic(auto, using(crate::proofs::Putting::put_both), unfolding(crate::specs::Text::end_text))]
    fn push_delivery(&mut self, i: u16, checked: bool)
        ensures line { self.new ≡ put self.old (text.end_text (Delivered i checked)) }
        ensures short { length (text.end_text (Delivered i checked)) ≤ 27 }
    {
        self.push_named("delivered ", i);
        self.push_str(checked_word(checked));
    }

    #[tactic(auto, using(crate::proofs::Putting::put_both), unfolding(crate::specs::Text::end_text))]
    fn push_violation(&mut self, letter: Letter, i: u16, aborts: bool)
        ensures line { self.new ≡ put self.old (text.end_text (Violated letter i aborts)) }
        ensures short { length (text.end_text (Violated letter i aborts)) ≤ 27 }
    {
        self.push_named("violation ", i);
        self.push_str(" ");
        self.push_byte(letter_of(letter));
        self.push_str(abort_word(aborts));
    }

    // What a TLP comes to, and where.
    #[tactic(auto, unfolding(crate::specs::Text::end_text))]
    pub fn push_end(&mut self, end: Outcome)
        ensures line { self.new ≡ put self.old (text.end_text end) }
        ensures short { length (text.end_text end) ≤ 27 }
    {
        match end {
            Outcome::Delivered(i, checked) => self.push_delivery(i, checked),
            Outcome::Host => self.push_named("host ", COMPLEX),
            Outcome::Unclaimed(i) => self.push_named("unclaimed ", i),
            Outcome::Undefined(i) => self.push_named("undefined ", i),
            Outcome::Violated(letter, i, aborts) => self.push_violation(letter, i, aborts),
        }
    }

    // Mark, version, record count.
    #[tactic(auto, using(crate::proofs::Putting::put_both), unfolding(crate::specs::Text::head_text))]
    pub fn push_head(&mut self, s: &[u8])
        requires { 8 ≤ length s.now }
        ensures line { self.new ≡ put self.old (text.head_text s.now) }
        ensures short { length (text.head_text s.now) ≤ 23 }
    {
        self.push_named("ACS ", le(s, 4));
        self.push_named(" records ", le(s, 6));
    }

    // A refusal's number and index.
    #[tactic(auto, using(crate::proofs::Putting::put_both), unfolding(crate::specs::Text::refusal_text))]
    pub fn push_refusal(&mut self, why: Refusal, i: u16)
        ensures line { self.new ≡ put self.old (text.refusal_text (number_of why) i) }
        ensures short { length (text.refusal_text (number_of why) i) ≤ 19 }
    {
        self.push_named("refusal ", u16::from(u8::from(why)));
        self.push_named(" ", i);
    }
}

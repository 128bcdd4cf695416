// An endpoint range's length is a power of two, and first is a multiple of it.
ghost use Rattle.std.specs.Prelude.{◌≡◌};
ghost use Rattle.rules.specs.Records as records;

// The count of ones decides the power, and trailing zeros serve the alignment test: 0, which has 64,
// is a multiple of every length. A power of two is at most 2^63 here by the width of its type.
#[tactic(auto, using(crate::proofs::Digits::sized_then, crate::proofs::Digits::sized_else))]
fn sized(length: u64, first: u64) -> bool
    ensures { result ≡ records.sized length first }
{
    length.count_ones() == 1 && 128 <= length && length.trailing_zeros() <= first.trailing_zeros()
}

// A length of 2^64, from 0 to the highest address, fits no u64: the checked sum tells it apart.
#[tactic(auto, using(crate::proofs::Digits::spans))]
pub fn span_fine(first: u64, last: u64) -> bool
    ensures { result ≡ records.span_fine first last }
{
    let Some(rest) = last.checked_sub(first) else {
        return false;
    };
    let Some(length) = rest.checked_add(1) else {
        return false;
    };
    sized(length, first)
}

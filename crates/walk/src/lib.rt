// The way of a TLP through an accepted snapshot: up, down, and the hops.
#![tactic(auto)]

mod down;
pub mod hops;
mod up;
pub mod way;

use rules::Outcome;

// What a TLP comes to, and its hop count, by which the buffer is indexed; `rules::Ended` has it in the
// 16 bits of the answer.
#[derive(Clone, Copy, Debug, PartialEq, Eq)]
pub struct Walked {
    pub end: Outcome,
    pub hops: usize,
}

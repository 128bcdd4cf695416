// The check of a snapshot: refusals 1 to 4.
#![tactic(auto)]

pub mod check;

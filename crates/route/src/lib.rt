// One query: the refusals 1 to 7 around the walk.
#![tactic(auto)]

pub mod answer;

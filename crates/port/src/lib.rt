// One port: what it does with a TLP that goes up, and with one that goes down.
#![tactic(auto)]

pub mod decide;
mod egress;
pub mod pass;

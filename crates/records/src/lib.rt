// When a record of a snapshot is faulty: a function to each rule of document 01, and the search for
// the lowest record that breaks one.
#![tactic(auto)]

mod buses;
pub mod faulty;
mod pair;
mod parents;
mod ranges;
mod registers;
mod siblings;

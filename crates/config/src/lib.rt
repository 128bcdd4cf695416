// A configuration space image of a bridge read: a decoder for each thing, and the record filled with
// what they give.
#![tactic(auto)]

pub mod fill;
pub mod header;
pub mod image;
mod list;
mod record;
mod windows;

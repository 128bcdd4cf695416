// Words, numbers and lines put into a text.
#![tactic(auto)]

mod buffer;
mod lines;
pub mod put;

pub use buffer::Text;

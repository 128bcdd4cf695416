// Numbers in byte slices, runs of zero bytes, powers of two; the laws of bytes laid into a buffer
// stand in proofs/Laid.antt.
#![tactic(auto)]

mod numbers;
mod powers;

pub use numbers::{LittleEndian, is_zero, le, put_bytes, put_le_u64};
pub use powers::span_fine;

// The wire form: the bytes of a block of a sending, written into a buffer.
// This crate knows nothing of payloads and frames; where a block goes is its caller's to say.
#![tactic(auto)]

mod block;
mod write;

pub use write::{block_length, write_block};

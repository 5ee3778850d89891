// Frames: one line's payload as it is filled with blocks of sendings, sealed, and drawn by a line system.
// This crate knows nothing of how a line is drawn, nor of how a block's bytes are made. It allocates nothing.
#![tactic(auto)]

mod frame;
mod limits;
mod marking;
mod open;
mod put;
mod sealed;
mod wanted;

pub use frame::{OpenFrame, SealedFrame};
pub use marking::mark_frame;
pub use wanted::Wanted;

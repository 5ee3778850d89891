// The reader: it is offered lines, gathers the blocks of the numbers it watches, and hands whole messages over in a tray. Fixed
// memory, no allocator. It knows nothing of how a line is read, of how a block is laid out, or of a tray's bytes.
// specs/Marks.antt has what is promised over whole runs; `offer` and `restart` have it in their contracts.
#![tactic(auto)]

mod calls;
mod follow;
mod offer;
mod payload;
mod progress;
mod reader;
mod take;

pub use reader::{Answer, Reader};

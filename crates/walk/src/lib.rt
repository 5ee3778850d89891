// The walk over a payload: its entries, blocks that are read and faults, in order and with their places.
// This crate knows nothing of lines, of watched numbers or of how parts are gathered.
#![tactic(auto)]

mod entry;
mod parse;
mod steps;
mod walk;

pub use entry::{Cause, Entry};
pub use walk::Walk;

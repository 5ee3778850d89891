// The tray in which an offer's messages and faults are handed over: its bytes, writing them and reading them back.
// This crate knows nothing of lines, nor of how messages come about, and of payloads only why a block in one is not read.
#![tactic(auto)]

mod cause;
mod entry;
mod fault;
mod limits;
mod open;
mod put;
mod read;
mod row;
mod tray;

pub use cause::Cause;
pub use entry::Entry;
pub use fault::{Fault, Faults};
pub use limits::TRAY_LEAST;
pub use put::{finish, put_fault, put_faults, put_message};
pub use tray::{Entries, Tray};

// An entry of a tray, as a part of it. Its place is the index of its first byte.
ghost use Rattle.std.specs.Prelude.{◌≡◌, ◌<◌, ◌^◌};
ghost use Rattle.tray.specs.Entries.{entry_end};

use super::cause::Cause;
use super::limits::{FAULT, HEAD};

// No Result: a fault is an entry like another, and told as one.
#[derive(Clone, Copy, PartialEq, Eq, Debug)]
pub enum Entry<'a> {
    Message {
        place: usize,
        number: u8,
        version: u8,
        bytes: &'a [u8],
    },
    // at is the block's place in its payload
    Fault {
        place: usize,
        cause: Cause,
        number: u8,
        at: u8,
    },
}

impl Entry<'_> {
    // The place behind it.
    pub(crate) fn end(&self) -> usize
        requires fits { entry_end self.now < 2 ^ 64 }
        ensures { result ≡ entry_end self.now }
    {
        match *self {
            Entry::Message { place, bytes, .. } => place + (HEAD + bytes.len()),
            Entry::Fault { place, .. } => place + FAULT,
        }
    }
}

// The writing of message bodies: which kinds are written, the bytes of a message, and the one call that writes a message of
// any such kind and reads it back. Nothing here knows how a body is sent, or allocates.
#![tactic(auto)]

mod kinds;
mod laying;
mod values;
mod writable;
mod writing;

pub use writable::{WritableFormat, WritableKind, write_body};

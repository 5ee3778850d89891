// What the programs tape and spotlog share: what stands on their tapes, and how it is printed.
#![tactic(auto)]

mod identifier;
mod printed;
mod programme;

pub use identifier::Identifier;
pub use printed::{Head, Hex, Text};
pub use programme::{CHANNEL, COLUMNS, PAYLOAD, PAYLOAD_LENGTH, SPOT, TITLE};

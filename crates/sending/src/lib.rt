// Sendings: a message in one to four parts, made by cutting a message or from given parts, and the blocks of it as values.
// This crate knows nothing of how a block is written or read, or of payloads, and allocates nothing.
#![tactic(auto)]

mod block;
mod blocks;
mod cut;
mod given;
mod limits;
mod parts;
mod reads;
mod room;
mod sending;

pub use block::Block;
pub use limits::{
    BEFORE_BODY, BESIDE_BODY, LAST_MOST, MESSAGE_MOST, PART_MOST, PART_WEIGHT, PARTS_MOST,
    UNCOUNTED, VERSION_MOST, VERSION_WEIGHT, WORD,
};
pub use room::Room;
pub use sending::Sending;

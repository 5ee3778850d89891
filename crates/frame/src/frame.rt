// Open and sealed frames in memory: two types, so that no open frame is drawn and nothing is put into a sealed one.
use super::limits::MEMORY;
use std::marker::Model;

// How many bytes a frame's payload will have, and how far it is filled.
#[derive(Clone, Copy, PartialEq, Eq, Debug)]
pub(crate) struct Fill {
    pub(crate) size: usize,
    pub(crate) mark: usize,
}

// In fixed memory: the library crates have no allocator, and no crate of the kit beneath them but std.
// A frame that takes blocks of sendings. Every one that exists holds EB 52 and such blocks, and nothing else, below its mark.
#[derive(Drop)]
pub struct OpenFrame {
    pub(crate) bytes: [u8; MEMORY],
    pub(crate) fill: Fill,
}

impl Model for OpenFrame {
    ghost use Rattle.frame.specs.Groups.{Open, IsOpen};

    ghost Value = { Open };

    ghost view = { λ f. record { bytes = f.bytes; size = f.fill.size; mark = f.fill.mark } };

    ghost invariant = { λ f. IsOpen (record { bytes = f.bytes; size = f.fill.size; mark = f.fill.mark }) };
}

// In fixed memory: the library crates have no allocator, and no crate of the kit beneath them but std.
// A frame that is drawn, seen as its payload. Every one that exists is EB 52, blocks of sendings and zeros, 2 to 60 bytes in
// all.
#[derive(Drop)]
pub struct SealedFrame {
    pub(crate) bytes: [u8; MEMORY],
    pub(crate) size: usize,
}

impl Model for SealedFrame {
    ghost use Rattle.std.specs.Prelude.{ℕ, ◌≤◌, List, take};
    ghost use Rattle.frame.specs.Frames.{SealedOver};

    ghost Value = { List ℕ };

    ghost view = { λ f. take f.size f.bytes };

    ghost invariant = { λ f. (2 ≤ f.size) × (f.size ≤ 60) × SealedOver (take f.size f.bytes) };
}

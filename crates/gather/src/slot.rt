// What is gathered of the blocks of one number.
ghost use Rattle.std.specs.Prelude.{◌≡◌, ◌≤◌, length};
ghost use Rattle.gather.specs.States.{last_in, parts_in};

use sending::{PART_MOST, PARTS_MOST};

// A part that is held: how many bytes it has, the frame in which it was read, and the message CRC where its block carries it.
#[derive(Clone, Copy, PartialEq, Eq, Debug)]
pub struct Part {
    pub(crate) size: usize,
    pub(crate) frame: u64,
    pub(crate) check: Option<u32>,
}

// Nothing is held, or parts of one version and last number.
// No Option: the project wants a slot's state to be an enum of numbers, matched in place together with the block that comes.
#[derive(Clone, Copy, PartialEq, Eq, Debug)]
pub enum State {
    Empty,
    Gathering {
        version: u8,
        last: u8,
        parts: [Option<Part>; PARTS_MOST],
    },
}

// What is gathered for one watched number. The bytes of part k lie at the front of bytes[k], where the state holds it.
// Two arrays and not one of pairs: by the same rule the state holds numbers alone, and the bytes lie beside it.
// No ==: bytes that are left over from parts dropped mean nothing.
// That a step leaves the number is said at each: it speaks of before and after, which no invariant can.
#[derive(Clone, Copy, Debug)]
pub struct Slot {
    pub(crate) number: u8,
    pub(crate) state: State,
    pub(crate) bytes: [[u8; PART_MOST]; PARTS_MOST],
    ghost few: { last_in state ≤ 3 },
    ghost four: { length (parts_in state) ≡ 4 },
}

// What a block came to.
#[derive(Clone, Copy, PartialEq, Eq, Debug)]
pub enum Arrival {
    // its number isn't watched
    NotWatched,
    // no block that is read has such parts: more than four, one above the last, or a body too long
    Unfit,
    // parts are still awaited
    Silent,
    // a message of so many bytes
    Message { length: usize },
    // the joined parts fail the message CRC
    Faulty,
}

// What stands at one place of a payload.
ghost use Rattle.std.specs.Prelude.{◌≡◌};
ghost use Rattle.walk.specs.Fields.{cause_number};
ghost use Rattle.walk.specs.Entries.{finishes};

use sending::Block;

// Why a block isn't read, in the order of the tests.
#[derive(Clone, Copy, PartialEq, Eq, Debug)]
pub enum Cause {
    // no count byte, a count under 5, or a block past the payload's end
    Torn = 1,
    // CRC_32 is wrong
    Crc = 2,
    // the part's number is above the last part's
    Part = 3,
    // too short for the message CRC that must stand in it
    Short = 4,
}

impl Cause {
    // The number by which the cause is known outside.
    pub fn number(self) -> u8
        ensures answer { result ≡ cause_number self }
    {
        self as u8
    }

    // Whether it finishes the line: nothing then tells where a next block would begin.
    pub(crate) fn ends_line(self) -> bool
        ensures { result ≡ finishes (cause_number self) }
    {
        matches!(self, Cause::Torn | Cause::Crc)
    }
}

// A block that is read, or a fault. It borrows the payload's bytes. No Result: a fault is an entry like another, and told as one.
#[derive(Clone, Copy, PartialEq, Eq, Debug)]
pub enum Entry<'a> {
    Block {
        place: usize,
        block: Block<'a>,
    },
    // the number byte is what stands where the block begins
    Fault {
        place: usize,
        cause: Cause,
        number: u8,
    },
}

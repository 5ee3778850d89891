// The reader in memory.
use gather::Table;
use system::system::LineSystem;

// What a taken offer answers.
#[derive(Clone, Copy, PartialEq, Eq, Debug)]
pub struct Answer {
    // the length of the payload found, 0 where no run-in was found: a number, as docs/READER.md tells it, and no payload is empty
    pub length: usize,
    // how many bytes of the tray are used
    pub used: usize,
    // how many blocks were read whose number isn't watched
    pub skipped: usize,
}

// What a reader keeps from one offer to the next.
#[derive(Debug, Drop)]
pub struct Memory {
    pub(crate) table: Table,
    // the frame number of the last offer taken, below which none is taken; 0 where none was
    pub(crate) floor: u64,
}

// A reader of lines by one line system, which gathers the blocks of the numbers it watches.
#[derive(Debug, Drop)]
pub struct Reader<L: LineSystem> {
    pub(crate) system: L,
    pub(crate) memory: Memory,
}

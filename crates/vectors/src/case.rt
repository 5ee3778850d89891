// A case behind its name: its words, and the memory for what is read and answered.
use std::alloc::{AllocError, Global};
use words::{Stop, Words, read_numbers, read_parts, read_samples};

// What every output and tray holds before a call.
pub const FILLING: u8 = 0xaa;

#[derive(Drop)]
pub struct Case<'a> {
    pub heap: Global,
    pub words: Words<'a>,
}

impl Case<'_> {
    pub fn hex(&mut self) -> Result<Vec<u8>, Stop> {
        self.words.hex(self.heap)
    }

    pub fn samples(&mut self) -> Result<Vec<u16>, Stop> {
        read_samples(self.heap, self.words.word()?)
    }

    pub fn numbers(&mut self) -> Result<Vec<u8>, Stop> {
        read_numbers(self.heap, self.words.word()?)
    }

    pub fn parts(&mut self) -> Result<Vec<Vec<u8>>, Stop> {
        read_parts(self.heap, self.words.word()?)
    }

    // An output or a tray of so many bytes.
    pub fn room(&self, length: usize) -> Result<Vec<u8>, AllocError> {
        vec![in self.heap; FILLING; length]
    }
}

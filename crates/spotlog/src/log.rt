// What is printed of a frame: lines with a label and the frame's number.
use refusal::Refusal;
use showing::Head;
use std::fmt::Display;
use std::io;
use walk::{Entry, Walk};

// The system and the line stay beside it: most of what is printed needs neither.
#[derive(Clone, Copy)]
pub struct Log<'a> {
    pub rt: &'a HostRuntime,
    pub frame: u64,
}

impl Log<'_> {
    pub fn say<T: Display + Drop>(&self, label: &str, what: T) -> io::Result<()> {
        println!(self.rt; "{label:<8} frame {}  {what}", self.frame)
    }

    // What was refused, and why.
    pub fn refused(&self, what: &str, refusal: Refusal) -> io::Result<()> {
        self.say("refused", format_args!("{what} by {refusal}"))
    }

    // The blocks that are read in a payload, without the faults.
    pub fn blocks(&self, label: &str, payload: &[u8]) -> io::Result<()> {
        for entry in Walk::new(payload) {
            if let Entry::Block { place, block } = entry {
                let head = Head(block);
                let length = block.body.len();
                self.say(
                    label,
                    format_args!("{head} place {place:>2} bytes {length:>3}"),
                )?;
            }
        }
        Ok(())
    }
}

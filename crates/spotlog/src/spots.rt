// The spots of a tape, dated: which content stood there, from which frame to which.
use body::Content;
use showing::Identifier;
use std::alloc::{AllocError, Global};
use std::fmt;

#[derive(Clone, Copy)]
pub struct Spot<'a> {
    identifier: Identifier<'a>,
    first: u64,
    last: u64,
}

impl fmt::Display for Spot<'_> {
    fn fmt<W: fmt::Write>(&self, f: &mut fmt::Formatter<W>) -> fmt::Result {
        write!(
            f,
            "frames {} to {}  {}",
            self.first, self.last, self.identifier
        )
    }
}

// The spots so far, in order.
#[derive(Drop)]
pub struct Spots<'a> {
    pub list: Vec<Spot<'a>>,
}

impl<'a> Spots<'a> {
    pub fn new(heap: Global) -> Spots<'a> {
        Spots {
            list: Vec::new(heap),
        }
    }

    // Notes a content that was handed over in a frame: the latest spot goes on, or a new one begins.
    pub fn note(&mut self, frame: u64, content: Content<'a>) -> Result<(), AllocError> {
        let identifier = Identifier::from(content);
        match self.list.last_mut() {
            Some(spot) if spot.identifier == identifier => spot.last = frame,
            _ => self.list.push(Spot {
                identifier,
                first: frame,
                last: frame,
            })?,
        }
        Ok(())
    }
}

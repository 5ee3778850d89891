// The case of a tray that is read.
use crate::case::Case;
use crate::text::{Shown, entries};
use itertools::Itertools;
use std::fmt;
use tray::{Entry, Tray};
use words::{Hex, Stop};

impl fmt::Display for Shown<Entry<'_>> {
    fn fmt<W: fmt::Write>(&self, f: &mut fmt::Formatter<W>) -> fmt::Result {
        match self.0 {
            Entry::Message {
                place,
                number,
                version,
                bytes,
            } => {
                let bytes = Hex(bytes);
                write!(f, "message:{number}:{version}:{bytes}:{place}")
            }
            Entry::Fault {
                place,
                cause,
                number,
                at,
            } => {
                let layer = cause.layer();
                let cause = cause.number();
                write!(f, "fault:{layer}:{cause}:{number}:{at}:{place}")
            }
        }
    }
}

pub fn tray(mut case: Case) -> Result<String, Stop> {
    let bytes = case.hex()?;
    case.words.end()?;
    let tray = Tray::open(&bytes)?;
    entries(case.heap, tray.entries().map(Shown).join(case.heap, " ")?)
}

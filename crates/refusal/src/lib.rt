// What is sent back where a call can't do what it is asked. Each refusal has a number, which never changes, and a place.
// This crate knows nothing of lines, blocks or bodies; docs/REFUSALS.md says when each refusal is answered.
#![tactic(auto)]

ghost use Rattle.std.specs.Prelude.{Some, ◌≡◌};
ghost use Rattle.refusal.specs.Refusals.{refusal_number, refusal_place, refusal_text};

use std::error::Error;
use std::fmt;

// A refused input, by its condition. The place, where a condition has one, is what the variant holds.
#[derive(Clone, Copy, PartialEq, Eq, Debug)]
pub enum Refusal {
    // the sample count, as given, that no line has
    SampleCount(usize),
    // the index of the first sample too large for the depth
    SampleSize(usize),
    // a frame number below that of the last offer taken
    FrameNumber,
    // the length of an output that is too short
    OutputLength(usize),
    // a pair of 1X levels that is not allowed
    Levels,
    // the index in its group of a block that goes past the frame's end
    FrameEnd(usize),
    // the length of a message too long to cut, or of the first given part that is too long
    TooLong(usize),
    // a number, version, count of parts or wanted block that no sending has
    NotOfASending,
    // the first wrong byte of a message body, or its length where a byte lacks
    Body(usize),
    // the first wrong index of a watch list
    WatchList(usize),
    // a depth other than 8, 10 and 12 bits, or two depths that differ
    Depth,
    // a payload length that is not drawn, a payload that doesn't begin EB 52, or a frame length outside 2 to 60
    Payload,
    // the first wrong byte of a tray, or its length where a byte lacks
    Tray(usize),
}

impl fmt::Display for Refusal {
    ghost output = { λ refusal. Some (refusal_text refusal) };

    fn fmt<W: fmt::Write>(&self, f: &mut fmt::Formatter<W>) -> fmt::Result {
        write!(f, "{} at {}", self.number(), self.place())
    }
}

impl Error for Refusal {}

impl Refusal {
    // The number by which the refusal is known outside. A table, and no `as`: the cases have fields.
    pub fn number(&self) -> u8
        ensures answer { result ≡ refusal_number self.now }
    {
        match *self {
            Refusal::SampleCount(_) => 1,
            Refusal::SampleSize(_) => 2,
            Refusal::FrameNumber => 3,
            Refusal::OutputLength(_) => 4,
            Refusal::Levels => 5,
            Refusal::FrameEnd(_) => 6,
            Refusal::TooLong(_) => 7,
            Refusal::NotOfASending => 8,
            Refusal::Body(_) => 9,
            Refusal::WatchList(_) => 10,
            Refusal::Depth => 11,
            Refusal::Payload => 12,
            Refusal::Tray(_) => 13,
        }
    }

    // The place: a count, a length or an index, as the condition has it; 0 where it has none.
    pub fn place(&self) -> u64
        ensures answer { result ≡ refusal_place self.now }
    {
        match *self {
            Refusal::SampleCount(count) => count as u64,
            Refusal::SampleSize(index) => index as u64,
            Refusal::OutputLength(length) => length as u64,
            Refusal::FrameEnd(index) => index as u64,
            Refusal::TooLong(length) => length as u64,
            Refusal::Body(index) => index as u64,
            Refusal::WatchList(index) => index as u64,
            Refusal::Tray(index) => index as u64,
            Refusal::FrameNumber
            | Refusal::Levels
            | Refusal::NotOfASending
            | Refusal::Depth
            | Refusal::Payload => 0,
        }
    }
}

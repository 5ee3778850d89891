// The lines and trays that the tests offer: 1X at eight bits, one sample to a symbol.
use frame::{OpenFrame, Wanted};
use line::depth::Depth;
use onex::levels::Levels;
use onex::one_x::OneX;
use reader::{Answer, Reader};
use refusal::Refusal;
use sending::{Room, Sending};
use system::system::LineSystem;

// A message that 1X takes in two parts, of 21 and 9 bytes.
pub(crate) const MESSAGE: &[u8; 30] = b"reference tape 42, reel 3 of 8";

pub(crate) const NUMBER: u8 = 7;

pub(crate) const VERSION: u8 = 3;

// The line system of the tests.
pub(crate) fn one_x() -> OneX {
    OneX::new(Levels::usual(Depth::Eight))
}

// A reader that watches the message's number.
pub(crate) fn watching() -> Result<Reader<OneX>, Refusal> {
    Reader::new(one_x(), &[NUMBER])
}

// The line of a frame with one part of the message, sent under a number.
pub(crate) fn part_of(number: u8, part: u8) -> Result<[u16; 240], Refusal> {
    let sending = Sending::cut(number, VERSION, MESSAGE, Room::OneX)?;
    let wanted = Wanted {
        sending: &sending,
        block: part,
    };
    let mut frame = OpenFrame::open(30)?;
    frame.put(&[&wanted])?;
    let mut line = [0u16; 240];
    frame.seal().draw(&one_x(), &mut line)?;
    Ok(line)
}

pub(crate) fn part(part: u8) -> Result<[u16; 240], Refusal> {
    part_of(NUMBER, part)
}

// A tray of 1,630 bytes, each AA.
pub(crate) fn tray() -> [u8; 1630] {
    [0xaa; 1630]
}

// An offer that was taken: the length of the payload, the bytes used in the tray, the blocks skipped.
pub(crate) fn took(length: usize, used: usize, skipped: usize) -> Result<Answer, Refusal> {
    Ok(Answer {
        length,
        used,
        skipped,
    })
}

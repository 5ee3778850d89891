// Cases of blocks: the CRC, cutting, the wire form, the walk.
use crate::case::Case;
use crate::text::{OrDash, Shown, entries};
use crc::crc32;
use itertools::Itertools;
use sending::{Block, Room, Sending};
use std::alloc::Global;
use std::fmt;
use walk::{Entry, Walk};
use wire::{block_length, write_block};
use words::{Hex, Stop, Words};

pub fn crc(mut case: Case) -> Result<String, Stop> {
    let bytes = case.hex()?;
    case.words.end()?;
    Ok(format!(in case.heap; "crc {:08X}", crc32(&bytes))?)
}

fn read_room(words: &mut Words) -> Result<Room, Stop> {
    let bytes = words.count()?;
    for room in [Room::OneX, Room::TwoX] {
        if room.bytes() == bytes {
            return Ok(room);
        }
    }
    Err(Stop::What)
}

pub fn cut(mut case: Case) -> Result<String, Stop> {
    let room = read_room(&mut case.words)?;
    let number = case.words.value()?;
    let version = case.words.value()?;
    let message = case.hex()?;
    case.words.end()?;
    let sending = Sending::cut(number, version, &message, room)?;
    let parts = (0..sending.parts())
        .filter_map(|i| sending.part(i))
        .map(Hex)
        .join(case.heap, ",")?;
    Ok(format!(in case.heap; "parts {parts}")?)
}

// The sending of given parts.
pub fn sending_of(
    heap: Global,
    number: u8,
    version: u8,
    parts: &[Vec<u8>],
) -> Result<Sending, Stop> {
    let rows: Vec<&[u8]> = parts.iter().map(Vec::as_slice).collect(heap)?;
    Ok(Sending::of_parts(number, version, &rows)?)
}

// A block of a sending as it is written.
fn written(heap: Global, sending: &Sending, i: u8) -> Result<Vec<u8>, Stop> {
    let mut block = vec![in heap; 0; block_length(sending, i)?]?;
    let _end = write_block(sending, i, &mut block, 0)?;
    Ok(block)
}

pub fn parts(mut case: Case) -> Result<String, Stop> {
    let number = case.words.value()?;
    let version = case.words.value()?;
    let parts = case.parts()?;
    case.words.end()?;
    let heap = case.heap;
    let sending = sending_of(heap, number, version, &parts)?;
    let blocks: Vec<Vec<u8>> = (0..4)
        .take(sending.parts())
        .map(|i| written(heap, &sending, i))
        .try_collect(heap)?;
    let blocks = blocks.iter().map(|block| Hex(block)).join(heap, ",")?;
    Ok(format!(in heap; "blocks {blocks}")?)
}

impl fmt::Display for Shown<Entry<'_>> {
    fn fmt<W: fmt::Write>(&self, f: &mut fmt::Formatter<W>) -> fmt::Result {
        match self.0 {
            Entry::Block { place, block } => {
                let Block {
                    number,
                    version,
                    part,
                    last,
                    body,
                    check,
                } = block;
                let body = Hex(body);
                let check = OrDash(check.map(Shown));
                write!(
                    f,
                    "block:{number}:{version}:{part}:{last}:{body}:{check}:{place}"
                )
            }
            Entry::Fault {
                place,
                cause,
                number,
            } => write!(f, "fault:{}:{number}:{place}", cause.number()),
        }
    }
}

// A message CRC.
impl fmt::Display for Shown<u32> {
    fn fmt<W: fmt::Write>(&self, f: &mut fmt::Formatter<W>) -> fmt::Result {
        write!(f, "{:08X}", self.0)
    }
}

pub fn walk_over(mut case: Case) -> Result<String, Stop> {
    let payload = case.hex()?;
    case.words.end()?;
    entries(
        case.heap,
        Walk::new(&payload).map(Shown).join(case.heap, " ")?,
    )
}

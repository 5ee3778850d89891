// Cases of frames: opened, filled, sealed, drawn.
use crate::blocks::sending_of;
use crate::case::Case;
use crate::lines::{Drawing, show_line};
use crate::text::ok;
use frame::{OpenFrame, SealedFrame, Wanted};
use sending::Sending;
use std::alloc::Global;
use words::{Hex, Stop, Words, read_parts};

pub fn open(mut case: Case) -> Result<OpenFrame, Stop> {
    let length = case.words.count()?;
    case.words.end()?;
    Ok(OpenFrame::open(length)?)
}

pub fn show_payload(heap: Global, frame: &SealedFrame) -> Result<String, Stop> {
    let payload = Hex(frame.payload());
    Ok(format!(in heap; "frame {payload}")?)
}

pub fn draw(mut case: Case, frame: &SealedFrame) -> Result<String, Stop> {
    let drawing = Drawing::read(&mut case.words)?;
    case.words.end()?;
    let system = drawing.system()?;
    let mut line = vec![in case.heap; 0u16; drawing.count]?;
    frame.draw(&system, &mut line)?;
    show_line(case.heap, &line)
}

// A wanted block as it is written, before its sending is made: given parts, and an index.
#[derive(Drop)]
struct Want {
    number: u8,
    version: u8,
    parts: Vec<Vec<u8>>,
    index: u8,
}

impl Want {
    // All indices past a byte are past every sending.
    fn read(heap: Global, word: &[u8]) -> Result<Want, Stop> {
        let mut fields = Words::between(word, b'/');
        let number = fields.value()?;
        let version = fields.value()?;
        let parts = read_parts(heap, fields.word()?)?;
        let index = fields.count()?.min(u8::MAX as usize) as u8;
        fields.end()?;
        Ok(Want {
            number,
            version,
            parts,
            index,
        })
    }
}

pub fn put(case: Case, frame: &mut OpenFrame) -> Result<String, Stop> {
    let heap = case.heap;
    let wants: Vec<Want> = case
        .words
        .rest()
        .map(|word| Want::read(heap, word))
        .try_collect(heap)?;
    let sendings: Vec<Sending> = wants
        .iter()
        .map(|want| sending_of(heap, want.number, want.version, &want.parts))
        .try_collect(heap)?;
    let blocks: Vec<Wanted> = wants
        .iter()
        .zip(&sendings)
        .map(|(want, sending)| Wanted {
            sending,
            block: want.index,
        })
        .collect(heap)?;
    let group: Vec<&Wanted> = blocks.iter().collect(heap)?;
    frame.put(&group)?;
    ok(heap)
}

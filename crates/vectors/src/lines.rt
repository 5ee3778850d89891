// Cases of lines: levels, reading, drawing.
use crate::case::Case;
use crate::systems::{Name, System};
use crate::text::ok;
use capture::answer::LineReading;
use capture::call::rueladle_read_line;
use line::checks::PAYLOAD_ROOM;
use line::depth::Depth;
use onex::levels::Levels;
use refusal::Refusal;
use std::alloc::Global;
use system::system::LineSystem;
use words::{Hex, Runs, Stop, Words};

pub fn levels(mut case: Case) -> Result<String, Stop> {
    let bits: u32 = case.words.value()?;
    let zero = case.words.value()?;
    let one = case.words.value()?;
    case.words.end()?;
    let _levels = Levels::new(Depth::try_from(bits)?, zero, one)?;
    ok(case.heap)
}

// What reading found, out of the buffer that it wrote.
pub fn show_found(heap: Global, found: Option<usize>, out: &[u8]) -> Result<String, Stop> {
    match found {
        Some(length) => {
            let bytes = Hex(&out[..length.min(out.len())]);
            Ok(format!(in heap; "found {length} {bytes}")?)
        }
        None => Ok(String::from_str(heap, "none")?),
    }
}

pub fn read(mut case: Case) -> Result<String, Stop> {
    let name = Name::try_from(case.words.word()?)?;
    let bits: u32 = case.words.value()?;
    let line = case.samples()?;
    // a case that states no room has what a reader asks for
    let room = case.words.count_or(PAYLOAD_ROOM)?;
    case.words.end()?;
    let system = name.reading(Depth::try_from(bits)?);
    let mut out = case.room(room)?;
    let found = system.read(&line, &mut out)?;
    show_found(case.heap, found, &out)
}

// What the call of a capture program answers: numbers, since C has them.
fn show_reading(heap: Global, reading: LineReading, out: &[u8]) -> Result<String, Stop> {
    match reading {
        LineReading {
            refusal: 0,
            length: 0,
            ..
        } => show_found(heap, None, out),
        LineReading {
            refusal: 0,
            length,
            ..
        } => show_found(heap, Some(length as usize), out),
        LineReading { refusal, place, .. } => Ok(format!(in heap; "refused {refusal} {place}")?),
    }
}

pub fn read_bytes(mut case: Case) -> Result<String, Stop> {
    let bits = case.words.value()?;
    let samples = case.hex()?;
    let room = case.words.count()?;
    case.words.end()?;
    let mut out = case.room(room)?;
    let reading = rueladle_read_line(bits, &samples, &mut out);
    show_reading(case.heap, reading, &out)
}

// How a line is drawn: by which system, and on how many samples.
#[derive(Clone, Copy)]
pub struct Drawing {
    name: Name,
    bits: u32,
    zero: u16,
    one: u16,
    pub count: usize,
}

impl Drawing {
    pub fn read(words: &mut Words) -> Result<Drawing, Stop> {
        Ok(Drawing {
            name: Name::try_from(words.word()?)?,
            bits: words.value()?,
            zero: words.value()?,
            one: words.value()?,
            count: words.count()?,
        })
    }

    pub fn system(&self) -> Result<System, Refusal> {
        let depth = Depth::try_from(self.bits)?;
        self.name.drawing_with(depth, self.zero, self.one)
    }
}

pub fn draw(mut case: Case) -> Result<String, Stop> {
    let drawing = Drawing::read(&mut case.words)?;
    let payload = case.hex()?;
    case.words.end()?;
    let system = drawing.system()?;
    let mut line = vec![in case.heap; 0u16; drawing.count]?;
    system.draw(&payload, &mut line)?;
    show_line(case.heap, &line)
}

pub fn show_line(heap: Global, line: &[u16]) -> Result<String, Stop> {
    let line = Runs(line);
    Ok(format!(in heap; "line {line}")?)
}

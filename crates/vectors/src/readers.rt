// Cases of readers: made, offered lines, restarted, asked.
use crate::case::{Case, FILLING};
use crate::systems::{Name, System};
use line::depth::Depth;
use reader::{Answer, Reader};
use std::alloc::Global;
use words::{Hex, Stop};

pub fn make(mut case: Case) -> Result<Reader<System>, Stop> {
    let name = Name::try_from(case.words.word()?)?;
    let bits: u32 = case.words.value()?;
    let watch = case.numbers()?;
    case.words.end()?;
    let system = name.reading(Depth::try_from(bits)?);
    Ok(Reader::new(system, &watch)?)
}

fn show_answer(heap: Global, answer: Answer, tray: &[u8]) -> Result<String, Stop> {
    let Answer {
        length,
        used,
        skipped,
    } = answer;
    let (front, rest) = tray.split_at(used.min(tray.len()));
    let rest = if rest.iter().all(|byte| *byte == FILLING) {
        "stays"
    } else {
        "changed"
    };
    let front = Hex(front);
    Ok(format!(in heap; "took {length} {used} {skipped} {front} {rest}")?)
}

pub fn offer(mut case: Case, reader: &mut Reader<System>) -> Result<String, Stop> {
    let frame = case.words.value()?;
    let line = case.samples()?;
    let room = case.words.count()?;
    case.words.end()?;
    let mut tray = case.room(room)?;
    let answer = reader.offer(frame, &line, &mut tray)?;
    show_answer(case.heap, answer, &tray)
}

pub fn held(mut case: Case, reader: &Reader<System>) -> Result<String, Stop> {
    let number = case.words.value()?;
    case.words.end()?;
    match reader.held(number) {
        Some(count) => Ok(format!(in case.heap; "held {count}")?),
        None => Ok(String::from_str(case.heap, "not-watched")?),
    }
}

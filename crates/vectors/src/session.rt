// What cases leave to those behind them, and the answer to each.
use crate::case::Case;
use crate::systems::System;
use crate::text::ok;
use crate::{blocks, bodies, frames, lines, readers, trays};
use anyhow::bail;
use frame::{OpenFrame, SealedFrame};
use reader::Reader;
use std::alloc::Global;
use std::io::Write;
use words::{Stop, Words};

#[derive(Drop)]
pub struct Session {
    open: Option<OpenFrame>,
    sealed: Option<SealedFrame>,
    reader: Option<Reader<System>>,
}

impl Session {
    pub fn new() -> Session {
        Session {
            open: None,
            sealed: None,
            reader: None,
        }
    }

    // Prints the answer to a line.
    pub fn say(&mut self, rt: &HostRuntime, line: &[u8]) -> anyhow::Result<()> {
        match self.answer(rt.alloc(), line) {
            Ok(text) => println!(rt; "{text}")?,
            Err(Stop::Refused(refusal)) => {
                println!(rt; "refused {} {}", refusal.number(), refusal.place())?;
            }
            Err(Stop::What) => {
                print!(rt; "what? ")?;
                rt.stdout().write_all(line)?;
                println!(rt; "")?;
            }
            Err(Stop::Memory) => bail!("no memory is left"),
        }
        Ok(())
    }

    // A match, and no table of closures: the cases differ in what they need of the session, if anything.
    fn answer(&mut self, heap: Global, line: &[u8]) -> Result<String, Stop> {
        let mut words = Words::new(line);
        let name = words.word()?;
        let case = Case { heap, words };
        match name {
            b"crc" => blocks::crc(case),
            b"levels" => lines::levels(case),
            b"read" => lines::read(case),
            b"draw" => lines::draw(case),
            b"cut" => blocks::cut(case),
            b"parts" => blocks::parts(case),
            b"walk" => blocks::walk_over(case),
            b"tray" => trays::tray(case),
            b"content" => bodies::content(case),
            b"c" => lines::read_bytes(case),
            b"time" => bodies::time(case),
            b"plain" => bodies::plain(case),
            b"writetime" => bodies::write_time(case),
            b"writecontent" => bodies::write_content(case),
            b"open" => self.open_frame(case),
            b"put" => frames::put(case, self.open.as_mut().ok_or(Stop::What)?),
            b"seal" => self.seal(case),
            b"drawframe" => frames::draw(case, self.sealed.as_ref().ok_or(Stop::What)?),
            b"reader" => self.make_reader(case),
            b"offer" => readers::offer(case, self.reader.as_mut().ok_or(Stop::What)?),
            b"restart" => self.restart(case),
            b"held" => readers::held(case, self.reader.as_ref().ok_or(Stop::What)?),
            _ => Err(Stop::What),
        }
    }

    fn open_frame(&mut self, case: Case) -> Result<String, Stop> {
        let heap = case.heap;
        self.open = Some(frames::open(case)?);
        ok(heap)
    }

    fn seal(&mut self, mut case: Case) -> Result<String, Stop> {
        case.words.end()?;
        let frame = self.open.take().ok_or(Stop::What)?.seal();
        let text = frames::show_payload(case.heap, &frame)?;
        self.sealed = Some(frame);
        Ok(text)
    }

    fn make_reader(&mut self, case: Case) -> Result<String, Stop> {
        let heap = case.heap;
        self.reader = Some(readers::make(case)?);
        ok(heap)
    }

    fn restart(&mut self, mut case: Case) -> Result<String, Stop> {
        case.words.end()?;
        self.reader.as_mut().ok_or(Stop::What)?.restart();
        ok(case.heap)
    }
}

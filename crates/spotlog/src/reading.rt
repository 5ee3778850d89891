// Reading the tape back: what the cable box lets through is offered to a reader, and what came of it is printed.
use crate::cable::{Fate, STEPS, pass};
use crate::handed::{content_of, print_entry};
use crate::log::Log;
use crate::setting::FIRST_FRAME;
use crate::spots::Spots;
use reader::Answer;
use replay::{Call, Outcome};
use showing::PAYLOAD_LENGTH;
use std::alloc::{AllocError, Global};
use std::io;
use system::system::LineSystem;
use tray::Tray;

// A step of the tape's way, with its line as it comes.
#[derive(Drop)]
pub struct Arrival {
    frame: u64,
    fate: Fate,
    line: Vec<u16>,
}

// Each step with its line.
pub fn arrivals(heap: Global, film: &[Vec<u16>]) -> Result<Vec<Arrival>, AllocError> {
    let mut arrivals = Vec::new(heap);
    for (frame, fate) in STEPS {
        let line = match film.get(frame.saturating_sub(FIRST_FRAME) as usize) {
            Some(line) => pass(heap, line, fate)?,
            None => Vec::new(heap),
        };
        arrivals.push(Arrival { frame, fate, line })?;
    }
    Ok(arrivals)
}

// The calls on the reader: an offer for each frame that comes, and the restart.
pub fn calls<'a>(
    heap: Global,
    arrivals: &'a [Arrival],
    tray: &'a [u8],
) -> Result<Vec<Call<'a>>, AllocError> {
    let mut calls = Vec::new(heap);
    for Arrival { frame, fate, line } in arrivals {
        match fate {
            Fate::Lost => {}
            Fate::Restart => calls.push(Call::Restart)?,
            _ => calls.push(Call::Offer {
                frame: *frame,
                line,
                tray,
            })?,
        }
    }
    Ok(calls)
}

// Prints what was sighted in a taken line, and how it was answered.
fn print_taken(log: Log, system: &impl LineSystem, line: &[u16], answer: Answer) -> io::Result<()> {
    // lent to `read`, which allocates nothing and answers how much it wrote
    let mut payload = [0; PAYLOAD_LENGTH];
    if let Ok(Some(length)) = system.read(line, &mut payload) {
        log.blocks("sighted", &payload[..length.min(PAYLOAD_LENGTH)])?;
    }
    let Answer {
        length,
        used,
        skipped,
    } = answer;
    log.say(
        "taken",
        format_args!("payload {length:>2} used {used:>3} skipped {skipped}"),
    )
}

// Prints the entries of a tray, and notes the spots.
fn print_tray<'a>(log: Log, tray: &'a [u8], spots: &mut Spots<'a>) -> io::Result<()> {
    match Tray::open(tray) {
        Ok(tray) => {
            for entry in tray.entries() {
                print_entry(log, entry)?;
                if let Some(content) = content_of(entry) {
                    spots.note(log.frame, content)?;
                }
            }
            Ok(())
        }
        Err(refusal) => log.refused("tray", refusal),
    }
}

// Prints what came of one offer.
fn print_outcome<'a>(
    log: Log,
    system: &impl LineSystem,
    line: &[u16],
    outcome: &'a Outcome,
    spots: &mut Spots<'a>,
) -> io::Result<()> {
    match outcome {
        Outcome::Restarted => Ok(()),
        Outcome::Offered {
            result: Err(refusal),
            tray: _,
        } => log.refused("offer", *refusal),
        Outcome::Offered {
            result: Ok(answer),
            tray,
        } => {
            print_taken(log, system, line, *answer)?;
            print_tray(log, &tray[..answer.used.min(tray.len())], spots)
        }
    }
}

// Prints step by step what the box did and what came of it, and notes the spots.
pub fn report<'a>(
    rt: &HostRuntime,
    system: &impl LineSystem,
    arrivals: &[Arrival],
    outcomes: &'a [Outcome],
) -> io::Result<Spots<'a>> {
    let mut spots = Spots::new(rt.alloc());
    let mut outcomes = outcomes.iter();
    for Arrival { frame, fate, line } in arrivals {
        let log = Log { rt, frame: *frame };
        match fate {
            Fate::Restart => log.say("restart", fate)?,
            _ => log.say("box", fate)?,
        }
        if let Fate::Lost = fate {
            continue;
        }
        if let Some(outcome) = outcomes.next() {
            print_outcome(log, system, line, outcome, &mut spots)?;
        }
    }
    Ok(spots)
}

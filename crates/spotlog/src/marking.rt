// Marking the tape: each frame is filled with its groups, sealed, and drawn as a line.
use crate::log::Log;
use crate::plan::{ONE_X, SHOTS_IN_ONE_X, SHOTS_IN_TWO_X, Shot, TWO_X};
use crate::setting::FIRST_FRAME;
use anyhow::Error;
use frame::{Wanted, mark_frame};
use sending::Sending;
use showing::COLUMNS;
use std::io;
use system::system::LineSystem;

// Marks one frame with two groups, the first so many blocks and the others, and fills its line. The two are told apart here: an
// array of the groups that is lent on is not covered by the borrow checker.
fn mark(
    log: Log,
    system: &impl LineSystem,
    size: usize,
    blocks: &[&Wanted],
    first: usize,
    line: &mut [u16],
) -> io::Result<()> {
    let mut refused = [None; 2];
    let (group, then) = blocks.split_at(first.min(blocks.len()));
    let sealed = match mark_frame(size, &[group, then], &mut refused) {
        Ok(sealed) => sealed,
        Err(refusal) => return log.refused("frame", refusal),
    };
    log.blocks("marked", sealed.payload())?;
    for (what, refusal) in ["group 0", "group 1"].iter().zip(refused) {
        if let Some(refusal) = refusal {
            log.refused(what, refusal)?;
        }
    }
    match sealed.draw(system, line) {
        Ok(()) => log.say("drawn", format_args!("payload {size}")),
        Err(refusal) => log.refused("drawing", refusal),
    }
}

// The line of a frame as it is planned.
fn shoot(log: Log, system: &impl LineSystem, size: usize, shot: Shot) -> anyhow::Result<Vec<u16>> {
    let heap = log.rt.alloc();
    let Shot(first, then) = shot;
    let mut wants = first.to_vec(heap)?;
    wants.extend_from_slice(then)?;
    let sendings: Vec<Sending> = wants
        .iter()
        .map(|(piece, _)| piece.sending().map_err(Error::from))
        .try_collect(heap)?;
    let blocks: Vec<Wanted> = wants
        .iter()
        .zip(&sendings)
        .map(|((_, block), sending)| Wanted {
            sending,
            block: *block,
        })
        .collect(heap)?;
    let blocks: Vec<&Wanted> = blocks.iter().collect(heap)?;
    let mut line = vec![in heap; 0u16; COLUMNS]?;
    mark(log, system, size, &blocks, first.len(), &mut line)?;
    Ok(line)
}

// The lines of the tape, frame by frame.
pub fn film(rt: &HostRuntime, system: &impl LineSystem) -> anyhow::Result<Vec<Vec<u16>>> {
    let mut lines = Vec::new(rt.alloc());
    let in_one_x = SHOTS_IN_ONE_X.iter().map(|shot| (ONE_X, shot));
    let in_two_x = SHOTS_IN_TWO_X.iter().map(|shot| (TWO_X, shot));
    for (frame, (size, shot)) in (FIRST_FRAME..).zip(in_one_x.chain(in_two_x)) {
        lines.push(shoot(Log { rt, frame }, system, size, *shot)?)?;
    }
    Ok(lines)
}

// Marks a reference tape, sends it through a bad cable box, reads it back, and prints what it did and which spots it found.
#![tactic(auto)]

mod cable;
mod handed;
mod lines;
mod log;
mod marking;
mod messages;
mod plan;
mod reading;
mod setting;
mod spots;

use anyhow::Context;
use body::{CONTENT_ID, PRESENTATION_TIME};
use messages::LOG;
use replay::replay;
use setting::DEPTH;
use showing::COLUMNS;
use tray::TRAY_LEAST;
use twox::one_two::one_else_two;

// The numbers that the reader watches.
const WATCH: [u8; 3] = [CONTENT_ID, PRESENTATION_TIME, LOG];

// Marks the tape, passes it through the box, reads it back, and prints the spots.
fn main(rt: HostRuntime) -> anyhow::Result<()> {
    let heap = rt.alloc();
    let system = one_else_two(DEPTH);
    println!(rt; "The tape is marked: {COLUMNS} samples a line, 10 bits")?;
    let film = marking::film(&rt, &system)?;
    println!(rt; "")?;
    println!(rt; "It is read through the cable box by 1X, else 2X; watched are {WATCH:?}")?;
    let tray = [0u8; TRAY_LEAST];
    let arrivals = reading::arrivals(heap, &film)?;
    let calls = reading::calls(heap, &arrivals, &tray)?;
    let outcomes = replay(heap, system, &WATCH, &calls).context("the calls are not replayed")?;
    let spots = reading::report(&rt, &system, &arrivals, &outcomes)?;
    println!(rt; "")?;
    println!(rt; "The spots on it")?;
    for spot in &spots.list {
        println!(rt; "spot     {spot}")?;
    }
    println!(rt; "")?;
    println!(rt; "Lines at the edge of the tolerance")?;
    lines::show(&rt)?;
    Ok(())
}

// Answers test cases, one a line on standard input, one answer a line on standard output (docs/VECTORS.md), through the
// proved crates. An independent implementation answers the same cases.
#![tactic(auto)]

mod any_of;
mod blocks;
mod bodies;
mod case;
mod frames;
mod lines;
mod readers;
mod session;
mod systems;
mod text;
mod trays;

use session::Session;
use std::io::Read;
use words::Pieces;

fn main(rt: HostRuntime) -> anyhow::Result<()> {
    let mut input = Vec::new(rt.alloc());
    rt.stdin().read_to_end(&mut input)?;
    // the last line feed ends a line and begins none
    let lines = match input.as_slice() {
        [] => return Ok(()),
        [lines @ .., b'\n'] => lines,
        lines => lines,
    };
    let mut session = Session::new();
    for line in Pieces::new(lines, b'\n') {
        session.say(&rt, line)?;
    }
    Ok(())
}

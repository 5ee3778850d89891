// Marks a reference tape, sends it through a bad cable box and reads it back, and prints what it did.
#![tactic(auto)]

mod blocks;
mod bodies;
mod lines;

fn main(rt: HostRuntime) -> anyhow::Result<()> {
    lines::show(&rt)?;
    println!(rt; "")?;
    blocks::show(&rt)?;
    println!(rt; "")?;
    bodies::show(&rt)?;
    Ok(())
}

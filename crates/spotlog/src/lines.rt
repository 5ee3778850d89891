// A payload drawn as a line at each depth, in 1X and in 2X, spoiled by as much as the tolerance allows, and read back; in 2X
// one step more is too much.
use crate::cable::brighten;
use line::depth::Depth;
use refusal::Refusal;
use showing::{COLUMNS, PAYLOAD, PAYLOAD_LENGTH};
use system::system::LineSystem;
use twox::one_two::one_else_two;

// Whether a drawn line that got brighter by e is read as it was drawn.
fn trip(depth: Depth, payload: &[u8], e: u16) -> Result<bool, Refusal> {
    let system = one_else_two(depth);
    let mut line = [0; COLUMNS];
    // lent to `read`, which allocates nothing and answers how much it wrote
    let mut found = [0; PAYLOAD_LENGTH];
    system.draw(payload, &mut line)?;
    brighten(&mut line, e, 256 * depth.unit() - 1);
    match system.read(&line, &mut found)? {
        Some(length) => Ok(&found[..length.min(PAYLOAD_LENGTH)] == payload),
        None => Ok(false),
    }
}

fn show_trip(rt: &HostRuntime, depth: Depth, payload: &[u8], e: u16) -> anyhow::Result<()> {
    let bits = depth.bits();
    let length = payload.len();
    let word = if trip(depth, payload, e)? {
        "read as drawn"
    } else {
        "not read as drawn"
    };
    println!(rt; "line     depth {bits:>2}  payload {length} brighter by {e:>3} {word}")?;
    Ok(())
}

pub fn show(rt: &HostRuntime) -> anyhow::Result<()> {
    for depth in [Depth::Eight, Depth::Ten, Depth::Twelve] {
        let q = depth.unit();
        show_trip(rt, depth, &PAYLOAD[..30], (36 * q - 1) / 4)?;
        show_trip(rt, depth, &PAYLOAD, (73 * q - 1) / 2)?;
        show_trip(rt, depth, &PAYLOAD, (73 * q + 1) / 2)?;
    }
    Ok(())
}

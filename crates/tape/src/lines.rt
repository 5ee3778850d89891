// A payload drawn as a line in 1X and in 2X at each depth, roughened by as much as the tolerance allows, and read back by
// 1X, else 2X; and lines that carry nothing, or are refused.
use line::depth::Depth;
use showing::{COLUMNS, Hex, PAYLOAD, PAYLOAD_LENGTH};
use std::io;
use system::system::LineSystem;
use twox::one_two::one_else_two;

// Moves every third sample up by e and the others down, and keeps all in their range.
fn roughen(line: &mut [u16], e: u16, most: u16) {
    for (i, sample) in line.iter_mut().enumerate() {
        *sample = if i % 3 == 0 {
            sample.saturating_add(e).min(most)
        } else {
            sample.saturating_sub(e)
        };
    }
}

// The runtime prints and the depth is printed: two arguments, which share no fact.
// Prints what is read in a line.
fn report(rt: &HostRuntime, depth: Depth, line: &[u16]) -> io::Result<()> {
    // lent to `read`, which allocates nothing and answers how much it wrote
    let mut found = [0; PAYLOAD_LENGTH];
    match one_else_two(depth).read(line, &mut found) {
        Ok(Some(length)) => {
            let bytes = Hex(&found[..length.min(PAYLOAD_LENGTH)]);
            println!(rt; "read {length} bytes{bytes}")
        }
        Ok(None) => println!(rt; "no run-in"),
        Err(refusal) => println!(rt; "refused {refusal}"),
    }
}

fn trip(rt: &HostRuntime, depth: Depth, name: &str, payload: &[u8], e: u16) -> anyhow::Result<()> {
    let bits = depth.bits();
    let mut line = [0; COLUMNS];
    one_else_two(depth).draw(payload, &mut line)?;
    roughen(&mut line, e, 256 * depth.unit() - 1);
    print!(rt; "depth {bits:>2}  {name}  {COLUMNS} samples  off by up to {e:>3}  ")?;
    report(rt, depth, &line)?;
    Ok(())
}

// Reads a ramp of so many samples, which carries nothing.
fn unmarked(rt: &HostRuntime, depth: Depth, count: usize) -> anyhow::Result<()> {
    let bits = depth.bits();
    let ramp: Vec<u16> = (0..count).map(|i| (i % 256) as u16).collect(rt.alloc())?;
    print!(rt; "depth {bits:>2}  unmarked  {count} samples  ")?;
    report(rt, depth, &ramp)?;
    Ok(())
}

fn show_depth(rt: &HostRuntime, depth: Depth) -> anyhow::Result<()> {
    let q = depth.unit();
    trip(rt, depth, "1X", &PAYLOAD[..30], (36 * q - 1) / 4)?;
    trip(rt, depth, "2X", &PAYLOAD, (73 * q - 1) / 2)?;
    unmarked(rt, depth, COLUMNS)
}

pub fn show(rt: &HostRuntime) -> anyhow::Result<()> {
    println!(rt; "Lines: drawn, roughened, and read by 1X, else 2X")?;
    for depth in [Depth::Eight, Depth::Ten, Depth::Twelve] {
        show_depth(rt, depth)?;
    }
    unmarked(rt, Depth::Eight, COLUMNS - 1)
}

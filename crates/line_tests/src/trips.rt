// Payloads drawn and read back.
use crate::drawn::payload;
use line::depth::Depth;
use std::process::Abort;
use std::test::Fail;
use system::round_trip::round_trip;
use twox::one_two::one_else_two;

// Draws and reads back a payload on a line of 240 n samples.
fn one(rt: &impl Abort, depth: Depth, n: usize, length: usize) -> Result<(), Fail> {
    let system = one_else_two(depth);
    let bytes = payload();
    // the longest that is tested, used in part: lines are lent as slices, and this needs no allocator
    let mut line = [0u16; 3840];
    let count = 240 * n.min(16);
    let mut back = [0xaau8; 60];
    let size = length.min(60);
    assert_eq!(rt;
        round_trip(&system, &bytes[..size], &mut line[..count], &mut back),
        Ok(Some(size))
    );
    assert_eq!(rt; back[..size], bytes[..size]);
    assert!(rt; back[size..].iter().all(|byte| *byte == 0xaa));
    Ok(())
}

#[test]
fn each_depth_and_width_reads_back(rt: HostRuntime) -> Result<(), Fail> {
    for depth in [Depth::Eight, Depth::Ten, Depth::Twelve] {
        for n in [1usize, 6, 8, 16] {
            one(&rt, depth, n, 30)?;
            one(&rt, depth, n, 60)?;
        }
    }
    Ok(())
}

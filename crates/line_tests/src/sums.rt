// The sums at which a symbol changes its value: 8 bits, 8 samples to a symbol.
use crate::drawn::payload;
use line::depth::Depth;
use std::process::Abort;
use std::test::Fail;
use system::system::LineSystem;
use twox::one_two::one_else_two;

// Gives the last symbol of a line this sum.
fn set_last(line: &mut [u16; 1920], sum: u16) {
    line[1912..].fill(sum / 8);
    line[1919] = sum / 8 + sum % 8;
}

// The last byte read, where symbol 239 of a drawn line has this sum.
fn last_byte(rt: &impl Abort, length: usize, sum: u16) -> Result<u8, Fail> {
    let system = one_else_two(Depth::Eight);
    let bytes = payload();
    let mut line = [0u16; 1920];
    system.draw(&bytes[..length.min(60)], &mut line)?;
    set_last(&mut line, sum);
    let mut found = [0u8; 60];
    let read = system.read(&line, &mut found)?.ok_or("no run-in")?;
    assert_eq!(rt; read, length);
    let byte = found.get(length.saturating_sub(1));
    Ok(*byte.ok_or("a payload of more than 60 bytes")?)
}

#[test]
fn a_sum_of_176_is_1_between_levels_4_and_40(rt: HostRuntime) -> Result<(), Fail> {
    assert_eq!(rt; last_byte(&rt, 30, 176)? % 2, 1);
    assert_eq!(rt; last_byte(&rt, 30, 175)? % 2, 0);
    Ok(())
}

#[test]
fn sums_of_2x_change_value_at_420_1004_and_1588(rt: HostRuntime) -> Result<(), Fail> {
    let cases: [(u16, u8); 6] = [
        (419, 0),
        (420, 1),
        (1003, 1),
        (1004, 2),
        (1587, 2),
        (1588, 3),
    ];
    for (sum, value) in cases {
        assert_eq!(rt; last_byte(&rt, 60, sum)? % 4, value);
    }
    Ok(())
}

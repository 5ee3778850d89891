// Each refusal at its edge.
use crate::clones::again;
use crate::drawn::payload;
use line::depth::Depth;
use onex::levels::Levels;
use onex::one_x::OneX;
use refusal::Refusal;
use std::process::Abort;
use std::test::Fail;
use system::first_else::FirstElse;
use system::joins::{Joins, first_else};
use system::system::LineSystem;
use twox::one_two::one_else_two;
use twox::two_x::TwoX;

// What reading a black line of so many samples answers.
fn black(count: usize) -> Result<Option<usize>, Refusal> {
    let system = one_else_two(Depth::Eight);
    // the longest that is tested, used in part: lines are lent as slices, and this needs no allocator
    let line = [0u16; 4080];
    let mut found = [0u8; 60];
    system.read(&line[..count.min(4080)], &mut found)
}

#[test]
fn sample_counts(rt: HostRuntime) -> Result<(), Fail> {
    for count in [0usize, 1, 239, 241, 1280, 3839, 3841, 4080] {
        assert_eq!(rt; black(count), Err(Refusal::SampleCount(count)));
    }
    assert_eq!(rt; black(240), Ok(None));
    assert_eq!(rt; black(3840), Ok(None));
    Ok(())
}

// The largest sample of a depth passes, and one more is refused; sizes are tested before the room.
fn largest_sample(rt: &impl Abort, depth: Depth, most: u16) -> Result<(), Fail> {
    let system = one_else_two(depth);
    let mut line = [most; 240];
    let mut found = [0u8; 60];
    let mut short = [0u8; 59];
    assert_eq!(rt; system.read(&line, &mut found), Ok(None));
    assert_eq!(rt;
        system.read(&line, &mut short),
        Err(Refusal::OutputLength(59))
    );
    line[239] = most.saturating_add(1);
    assert_eq!(rt;
        system.read(&line, &mut found),
        Err(Refusal::SampleSize(239))
    );
    line[7] = 65535;
    assert_eq!(rt; system.read(&line, &mut short), Err(Refusal::SampleSize(7)));
    Ok(())
}

#[test]
fn sample_sizes_and_room(rt: HostRuntime) -> Result<(), Fail> {
    let largest: [(Depth, u16); 3] = [
        (Depth::Eight, 255),
        (Depth::Ten, 1023),
        (Depth::Twelve, 4095),
    ];
    for (depth, most) in largest {
        largest_sample(&rt, depth, most)?;
    }
    Ok(())
}

#[test]
fn payloads_that_are_not_drawn(rt: HostRuntime) -> Result<(), Fail> {
    let system = one_else_two(Depth::Ten);
    let mut bytes = payload();
    let mut line = [7u16; 240];
    assert_eq!(rt;
        system.draw(&bytes[0..31], &mut line),
        Err(Refusal::Payload)
    );
    assert_eq!(rt;
        system.draw(&bytes[0..0], &mut line[0..239]),
        Err(Refusal::SampleCount(239))
    );
    bytes[1] = 0x53;
    assert_eq!(rt;
        system.draw(&bytes[0..30], &mut line),
        Err(Refusal::Payload)
    );
    assert_eq!(rt; line, [7u16; 240]);
    Ok(())
}

// Whether a pair of levels is allowed at eight bits.
fn allowed(zero: u16, one: u16) -> bool {
    Levels::new(Depth::Eight, zero, one).is_ok()
}

#[test]
fn levels_and_depths(rt: HostRuntime) -> Result<(), Fail> {
    assert!(rt; allowed(4, 20) && allowed(16, 32) && allowed(16, 100));
    assert!(rt;
        !allowed(3, 40)
            && !allowed(17, 40)
            && !allowed(4, 19)
            && !allowed(16, 31)
            && !allowed(4, 101)
    );
    assert_eq!(rt; Depth::from_bits(10), Ok(Depth::Ten));
    assert_eq!(rt; Depth::from_bits(9), Err(Refusal::Depth));
    let one = OneX::new(Levels::new(Depth::Eight, 4, 20)?);
    assert!(rt; first_else(one, TwoX::new(Depth::Ten)).is_err());
    Ok(())
}

// The two systems of a pair, a second pair of them, and both given back where their depths differ.
#[test]
fn pairs(rt: HostRuntime) -> Result<(), Fail> {
    let (one, two) = (OneX::new(Levels::usual(Depth::Ten)), TwoX::new(Depth::Ten));
    let pair = again(&one.join(two)?)?;
    assert_eq!(rt; *pair.first(), one);
    assert_eq!(rt; *pair.second(), two);
    let apart = FirstElse::of(one, TwoX::new(Depth::Eight));
    assert_eq!(rt; apart.err(), Some((one, TwoX::new(Depth::Eight))));
    Ok(())
}

// Sealed frames drawn and read back. 1X draws payloads of 30 bytes and 2X of 60, and neither draws another.
use frame::{OpenFrame, SealedFrame, Wanted, mark_frame};
use line::depth::Depth;
use onex::levels::Levels;
use onex::one_x::OneX;
use refusal::Refusal;
use sending::{Room, Sending};
use std::process::Abort;
use std::test::Fail;
use system::system::LineSystem;
use twox::two_x::TwoX;

fn spot() -> Result<Sending, Refusal> {
    Sending::cut(7, 3, b"spot 17", Room::OneX)
}

// A sealed frame of so many bytes, with one block of a message.
fn sealed(size: usize) -> Result<SealedFrame, Refusal> {
    let sending = spot()?;
    let wanted = Wanted {
        sending: &sending,
        block: 0,
    };
    let mut frame = OpenFrame::open(size)?;
    frame.put(&[&wanted])?;
    Ok(frame.seal())
}

// Drawn by the system, the frame is read back as its payload.
fn comes_back<L: LineSystem>(rt: &impl Abort, system: &L, frame: &SealedFrame) {
    let mut line = [0u16; 480];
    let mut found = [0xaau8; 60];
    assert_eq!(rt; frame.draw(system, &mut line), Ok(()));
    let payload = frame.payload();
    assert_eq!(rt; system.read(&line, &mut found), Ok(Some(payload.len())));
    assert!(rt; found.starts_with(payload));
}

#[test]
fn drawn_and_read_back(rt: HostRuntime) -> Result<(), Fail> {
    comes_back(&rt, &OneX::new(Levels::usual(Depth::Eight)), &sealed(30)?);
    comes_back(&rt, &TwoX::new(Depth::Eight), &sealed(60)?);
    Ok(())
}

// The system draws no frame of this length, a wrong sample count comes first, and the line stays.
fn is_refused<L: LineSystem>(rt: &impl Abort, system: &L, size: usize) -> Result<(), Fail> {
    let frame = sealed(size)?;
    let mut line = [7u16; 240];
    assert_eq!(rt; frame.draw(system, &mut line), Err(Refusal::Payload));
    assert_eq!(rt;
        frame.draw(system, &mut line[0..239]),
        Err(Refusal::SampleCount(239))
    );
    assert_eq!(rt; line, [7; 240]);
    Ok(())
}

#[test]
fn lengths_that_are_not_drawn(rt: HostRuntime) -> Result<(), Fail> {
    for size in [16usize, 29, 31, 60] {
        is_refused(&rt, &OneX::new(Levels::usual(Depth::Eight)), size)?;
    }
    for size in [16usize, 30, 59] {
        is_refused(&rt, &TwoX::new(Depth::Eight), size)?;
    }
    Ok(())
}

#[test]
fn marked_and_read_back(rt: HostRuntime) -> Result<(), Fail> {
    let sending = spot()?;
    let wanted = Wanted {
        sending: &sending,
        block: 0,
    };
    let mut refused = [None; 2];
    let frame = mark_frame(30, &[&[&wanted], &[&wanted, &wanted]], &mut refused)?;
    assert_eq!(rt; refused, [None, Some(Refusal::FrameEnd(1))]);
    comes_back(&rt, &OneX::new(Levels::usual(Depth::Eight)), &frame);
    Ok(())
}

// What stands in the tray, byte by byte and entry by entry.
use crate::lines::{MESSAGE, NUMBER, VERSION, part, took, tray, watching};
use std::process::Abort;
use std::test::Fail;
use tray::{Entry, Tray};

// Every byte from a place on is as it was.
fn stays_from(rt: &impl Abort, bytes: &[u8; 1630], place: usize) {
    assert!(rt; bytes.iter().skip(place).all(|byte| *byte == 0xaa));
}

#[test]
fn no_run_in_leaves_an_empty_tray(rt: HostRuntime) -> Result<(), Fail> {
    let mut reader = watching()?;
    let mut bytes = tray();
    assert_eq!(rt; reader.offer(1, &[0u16; 240], &mut bytes), took(0, 2, 0));
    assert!(rt; bytes[..2] == [0, 0]);
    stays_from(&rt, &bytes, 2);
    Ok(())
}

// The one message of a tray is the one that was sent.
fn holds_the_message(rt: &impl Abort, used: &[u8]) -> Result<(), Fail> {
    let tray = Tray::open(used)?;
    let mut entries = tray.entries();
    let sent = Entry::Message {
        place: 1,
        number: NUMBER,
        version: VERSION,
        bytes: MESSAGE.as_slice(),
    };
    assert_eq!(rt; entries.next(), Some(sent));
    assert!(rt; entries.next().is_none());
    Ok(())
}

#[test]
fn a_whole_message_is_handed_over(rt: HostRuntime) -> Result<(), Fail> {
    let mut reader = watching()?;
    let mut bytes = tray();
    let first = reader.offer(1, &part(1)?, &mut bytes)?;
    assert_eq!(rt; first.used, 2);
    let second = reader.offer(2, &part(0)?, &mut bytes)?;
    assert_eq!(rt; second.used, 35);
    holds_the_message(&rt, &bytes[..35])?;
    stays_from(&rt, &bytes, 35);
    Ok(())
}

#[test]
fn a_damaged_block_is_told(rt: HostRuntime) -> Result<(), Fail> {
    let mut reader = watching()?;
    let mut bytes = tray();
    let mut line = part(0)?;
    line[80] = 44u16.saturating_sub(line[80]);
    assert_eq!(rt; reader.offer(1, &line, &mut bytes)?.used, 6);
    assert!(rt; bytes[..6] == [0, 1, 1, 2, NUMBER, 2]);
    stays_from(&rt, &bytes, 6);
    Ok(())
}

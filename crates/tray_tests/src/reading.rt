// Trays read: each wrong byte once, and a right tray entry by entry.
use refusal::Refusal;
use std::process::Abort;
use tray::{Cause, Entry, Tray};

// One message of two bytes, then a fault of each layer.
pub(crate) fn right() -> [u8; 15] {
    [1, 5, 15, 2, 0xab, 0xcd, 2, 1, 4, 9, 2, 2, 1, 5, 59]
}

// Why these bytes are no tray.
fn wrong(bytes: &[u8]) -> Option<Refusal> {
    Tray::open(bytes).err()
}

// The right tray with another byte at a place is refused there.
fn wrong_at(rt: &impl Abort, at: usize, byte: u8) {
    let mut bytes = right();
    if at < 15 {
        bytes[at] = byte;
    }
    assert_eq!(rt; wrong(&bytes), Some(Refusal::Tray(at)));
}

#[test]
fn wrong_bytes(rt: HostRuntime) {
    for (at, byte) in [
        (0usize, 9u8),
        (1, 0),
        (2, 16),
        (3, 201),
        (6, 9),
        (7, 0),
        (7, 3),
        (8, 0),
        (8, 5),
        (9, 0),
        (10, 1),
        (10, 60),
        (12, 0),
        (12, 2),
        (13, 0),
        (14, 60),
    ] {
        wrong_at(&rt, at, byte);
    }
    assert_eq!(rt; wrong(&right()), None);
}

#[test]
fn bytes_lacking_or_left_over(rt: HostRuntime) {
    let bytes = right();
    // n is how long the bytes are, and no index
    for n in 0..15usize {
        assert_eq!(rt; wrong(&bytes[0..n]), Some(Refusal::Tray(n)));
    }
    assert_eq!(rt; wrong(&[0, 0, 0]), Some(Refusal::Tray(2)));
    assert_eq!(rt; wrong(&[0u8; 1630]), Some(Refusal::Tray(2)));
}

#[test]
fn entries_in_order(rt: HostRuntime) -> Result<(), Refusal> {
    let bytes = right();
    let mut entries = Tray::open(&bytes)?.entries();
    assert_eq!(rt;
        entries.next(),
        Some(Entry::Message {
            place: 1,
            number: 5,
            version: 15,
            bytes: &[0xab, 0xcd],
        },)
    );
    assert_eq!(rt;
        entries.next(),
        Some(Entry::Fault {
            place: 7,
            cause: Cause::Block(walk::Cause::Short),
            number: 9,
            at: 2,
        },)
    );
    assert_eq!(rt;
        entries.next(),
        Some(Entry::Fault {
            place: 11,
            cause: Cause::Message,
            number: 5,
            at: 59,
        },)
    );
    assert_eq!(rt; entries.next(), None);
    Ok(())
}

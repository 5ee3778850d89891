// Refused offers, in their order, and that they change nothing; refused watch lists.
use crate::lines::{NUMBER, one_x, part, tray, watching};
use onex::one_x::OneX;
use reader::Reader;
use refusal::Refusal;
use std::process::Abort;
use std::test::Fail;

// The offer is refused, the part that the reader holds stays, and so does every byte of the tray.
fn is_refused(
    rt: &impl Abort,
    reader: &mut Reader<OneX>,
    frame: u64,
    line: &[u16],
    room: usize,
    refusal: Refusal,
) {
    let mut bytes = tray();
    assert_eq!(rt;
        reader.offer(frame, line, &mut bytes[..room.min(1630)]),
        Err(refusal)
    );
    assert_eq!(rt; reader.held(NUMBER), Some(1));
    assert!(rt; bytes == [0xaa; 1630]);
}

#[test]
fn refused_in_order_and_nothing_changes(rt: HostRuntime) -> Result<(), Fail> {
    let mut reader = watching()?;
    let mut bytes = tray();
    assert_eq!(rt; reader.offer(1000, &part(0)?, &mut bytes)?.used, 2);
    let good = part(1)?;
    let mut large = part(1)?;
    large[7] = 256;
    is_refused(
        &rt,
        &mut reader,
        999,
        &large[0..239],
        1629,
        Refusal::SampleCount(239),
    );
    is_refused(&rt, &mut reader, 999, &large, 1629, Refusal::SampleSize(7));
    is_refused(&rt, &mut reader, 999, &good, 1629, Refusal::FrameNumber);
    is_refused(
        &rt,
        &mut reader,
        5000,
        &good,
        1629,
        Refusal::OutputLength(1629),
    );
    is_refused(&rt, &mut reader, 5000, &good, 0, Refusal::OutputLength(0));
    assert_eq!(rt; reader.offer(1000, &good, &mut bytes)?.used, 35);
    Ok(())
}

#[test]
fn frame_numbers_at_the_end(rt: HostRuntime) -> Result<(), Fail> {
    let mut reader = watching()?;
    let mut bytes = tray();
    let line = part(0)?;
    assert!(rt; reader.offer(u64::MAX, &line, &mut bytes).is_ok());
    assert!(rt; reader.offer(u64::MAX, &line, &mut bytes).is_ok());
    is_refused(
        &rt,
        &mut reader,
        u64::MAX - 1,
        &line,
        1630,
        Refusal::FrameNumber,
    );
    is_refused(&rt, &mut reader, 0, &line, 1630, Refusal::FrameNumber);
    reader.restart();
    assert!(rt; reader.offer(0, &line, &mut bytes).is_ok());
    Ok(())
}

// Why a watch list is refused.
fn wrong(watch: &[u8]) -> Result<Option<Refusal>, Fail> {
    Ok(Reader::new(one_x(), watch).err())
}

#[test]
fn watch_lists(rt: HostRuntime) -> Result<(), Fail> {
    assert_eq!(rt; wrong(&[])?, Some(Refusal::WatchList(0)));
    assert_eq!(rt; wrong(&[3, 0, 3])?, Some(Refusal::WatchList(1)));
    assert_eq!(rt; wrong(&[3, 4, 3])?, Some(Refusal::WatchList(2)));
    assert_eq!(rt;
        wrong(&[1, 2, 3, 4, 5, 6, 7, 8, 1])?,
        Some(Refusal::WatchList(8))
    );
    assert_eq!(rt;
        wrong(&[1, 2, 3, 4, 5, 6, 7, 8, 9])?,
        Some(Refusal::WatchList(8))
    );
    assert_eq!(rt; wrong(&[1, 2, 3, 4, 5, 6, 7, 255])?, None);
    Ok(())
}

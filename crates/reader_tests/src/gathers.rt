// What is gathered over several frames.
use crate::lines::{NUMBER, part, part_of, took, tray, watching};
use std::process::Abort;
use std::test::Fail;

// Part 0 at one frame and part 1 at another: how much of the tray the second uses.
fn second_uses(rt: &impl Abort, first: u64, second: u64) -> Result<usize, Fail> {
    let mut reader = watching()?;
    let mut bytes = tray();
    assert_eq!(rt; reader.offer(first, &part(0)?, &mut bytes), took(30, 2, 0));
    assert_eq!(rt; reader.held(NUMBER), Some(1));
    Ok(reader.offer(second, &part(1)?, &mut bytes)?.used)
}

#[test]
fn parts_join_within_255_frames(rt: HostRuntime) -> Result<(), Fail> {
    assert_eq!(rt; second_uses(&rt, 1000, 1255)?, 35);
    assert_eq!(rt; second_uses(&rt, 1000, 1256)?, 2);
    assert_eq!(rt; second_uses(&rt, 1000, 1000)?, 35);
    assert_eq!(rt; second_uses(&rt, u64::MAX - 255, u64::MAX)?, 35);
    assert_eq!(rt; second_uses(&rt, u64::MAX - 256, u64::MAX)?, 2);
    assert_eq!(rt; second_uses(&rt, 0, u64::MAX)?, 2);
    Ok(())
}

#[test]
fn an_old_part_is_dropped(rt: HostRuntime) -> Result<(), Fail> {
    let mut reader = watching()?;
    let mut bytes = tray();
    assert_eq!(rt; reader.offer(1000, &part(0)?, &mut bytes), took(30, 2, 0));
    assert_eq!(rt; reader.offer(1256, &part(1)?, &mut bytes), took(30, 2, 0));
    assert_eq!(rt; reader.held(NUMBER), Some(1));
    assert_eq!(rt; reader.offer(1257, &part(0)?, &mut bytes), took(30, 35, 0));
    assert_eq!(rt; reader.held(NUMBER), Some(0));
    Ok(())
}

#[test]
fn a_restart_drops_parts_and_forgets_the_frame_number(rt: HostRuntime) -> Result<(), Fail> {
    let mut reader = watching()?;
    let mut bytes = tray();
    assert_eq!(rt; reader.offer(1000, &part(0)?, &mut bytes), took(30, 2, 0));
    reader.restart();
    assert_eq!(rt; reader.held(NUMBER), Some(0));
    assert_eq!(rt; reader.offer(5, &part(1)?, &mut bytes), took(30, 2, 0));
    assert_eq!(rt; reader.held(NUMBER), Some(1));
    assert_eq!(rt; reader.offer(6, &part(0)?, &mut bytes), took(30, 35, 0));
    Ok(())
}

#[test]
fn an_unwatched_block_is_skipped_and_counted(rt: HostRuntime) -> Result<(), Fail> {
    let mut reader = watching()?;
    let mut bytes = tray();
    assert_eq!(rt;
        reader.offer(1, &part_of(9, 0)?, &mut bytes),
        took(30, 2, 1)
    );
    assert_eq!(rt; reader.held(9), None);
    assert_eq!(rt; reader.held(NUMBER), Some(0));
    Ok(())
}

// Groups at the edge of a frame: a block of a two-byte message takes nine bytes.
use frame::{OpenFrame, Wanted, mark_frame};
use refusal::Refusal;
use sending::{Room, Sending};
use std::test::Fail;

fn short() -> Result<Sending, Refusal> {
    Sending::cut(1, 2, &[0x10, 0x11], Room::OneX)
}

// Its one block, and one above its last.
fn wants(sending: &Sending) -> [Wanted<'_>; 2] {
    [0, 1].map(|block| Wanted { sending, block })
}

#[test]
fn lengths(rt: HostRuntime) {
    for size in [0usize, 1, 61, 1000] {
        assert_eq!(rt; OpenFrame::open(size).err(), Some(Refusal::Payload));
    }
    assert_eq!(rt; OpenFrame::open(2).err(), None);
    assert_eq!(rt; OpenFrame::open(60).err(), None);
}

#[test]
fn whole_or_not_at_all(rt: HostRuntime) -> Result<(), Fail> {
    let sending = short()?;
    let [right, above] = wants(&sending);
    let mut frame = OpenFrame::open(19)?;
    assert_eq!(rt; frame.put(&[&right, &right]), Err(Refusal::FrameEnd(1)));
    assert_eq!(rt; frame.put(&[&above, &right]), Err(Refusal::NotOfASending));
    assert_eq!(rt; frame.put(&[&right]), Ok(()));
    assert_eq!(rt; frame.put(&[&above]), Err(Refusal::NotOfASending));
    assert_eq!(rt; frame.put(&[&right]), Err(Refusal::FrameEnd(0)));
    let sealed = frame.seal();
    assert_eq!(rt; sealed.payload().len(), 19);
    assert_eq!(rt; sealed.payload()[3], 7);
    assert_eq!(rt; sealed.payload()[11], 0);
    let mut full = OpenFrame::open(20)?;
    assert_eq!(rt; full.put(&[&right, &right]), Ok(()));
    Ok(())
}

#[test]
fn list_of_groups(rt: HostRuntime) -> Result<(), Fail> {
    let sending = short()?;
    let [right, above] = wants(&sending);
    let all = [&right, &right, &right, &above];
    let mut refused = [Some(Refusal::Depth); 5];
    let sealed = mark_frame(
        19,
        &[&all[0..2], &all[2..3], &all[3..4], &all[0..0]],
        &mut refused,
    )?;
    assert_eq!(rt;
        refused,
        [
            Some(Refusal::FrameEnd(1)),
            None,
            Some(Refusal::NotOfASending),
            None,
            Some(Refusal::Depth),
        ]
    );
    assert_eq!(rt; sealed.payload().len(), 19);
    Ok(())
}

#[test]
fn room_for_refusals(rt: HostRuntime) -> Result<(), Fail> {
    let sending = short()?;
    let [right, _] = wants(&sending);
    let mut refused = [Some(Refusal::Depth); 1];
    assert_eq!(rt;
        mark_frame(61, &[&[&right], &[&right]], &mut refused).err(),
        Some(Refusal::OutputLength(1))
    );
    assert_eq!(rt;
        mark_frame(61, &[&[&right]], &mut refused).err(),
        Some(Refusal::Payload)
    );
    assert_eq!(rt; refused, [Some(Refusal::Depth)]);
    Ok(())
}

// Trays written: every byte, and what doesn't fit.
use crate::reading::right;
use tray::{Cause, Fault, Faults, finish, put_fault, put_message};

fn two_faults() -> Faults {
    let mut faults = Faults::new();
    let _first = faults.push(Fault::new(Cause::Block(walk::Cause::Short), 9, 2));
    let _second = faults.push(Fault::new(Cause::Message, 5, 59));
    faults
}

#[test]
fn a_tray_is_written(rt: HostRuntime) {
    let mut tray = [0xaau8; 17];
    assert_eq!(rt; put_message(&mut tray, 1, 5, 15, &[0xab, 0xcd]), Some(6));
    assert_eq!(rt; finish(&mut tray, 1, 6, &two_faults()), Some(15));
    let bytes = right();
    assert!(rt; tray[..15] == bytes[..]);
    assert_eq!(rt; [tray[15], tray[16]], [0xaa, 0xaa]);
}

#[test]
fn what_does_not_fit_is_not_written(rt: HostRuntime) {
    let mut tray = [0xaau8; 5];
    assert_eq!(rt; put_message(&mut tray, 1, 5, 15, &[0xab, 0xcd]), None);
    assert_eq!(rt; finish(&mut tray, 0, 0, &Faults::new()), None);
    assert_eq!(rt; finish(&mut tray, 0, 5, &Faults::new()), None);
    let torn = Fault::new(Cause::Block(walk::Cause::Torn), 1, 2);
    assert_eq!(rt; put_fault(&mut tray, 2, torn), None);
    assert_eq!(rt; tray, [0xaa; 5]);
    assert_eq!(rt; finish(&mut tray, 0, 1, &Faults::new()), Some(2));
    assert_eq!(rt; tray, [0, 0, 0xaa, 0xaa, 0xaa]);
    let mut large = [0u8; 400];
    assert_eq!(rt; put_message(&mut large, 1, 5, 15, &[7; 201]), None);
    assert_eq!(rt; put_message(&mut large, 1, 5, 15, &[7; 200]), Some(204));
}

#[test]
fn nine_faults_are_kept(rt: HostRuntime) {
    let mut faults = Faults::new();
    let fault = Fault {
        layer: 1,
        cause: 2,
        number: 3,
        place: 4,
    };
    for _ in 0..9u32 {
        assert!(rt; faults.push(fault));
    }
    assert!(rt; !faults.push(fault));
}

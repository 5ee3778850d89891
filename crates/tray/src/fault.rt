// Faults, and the list in which they wait for the end of an offer.
ghost use Rattle.std.specs.Prelude.{◌≡◌, ◌≤◌, [], map, length, nat_lt};
ghost use Rattle.tray.specs.Trays.{fault_bytes, fault_section};
ghost use Rattle.tray.specs.Causes.{numbers};
ghost use Rattle.tray.specs.Said.{fault_said};
ghost use Rattle.tray.specs.Writing.{fault_more};

use super::cause::Cause;
use super::limits::{FAULT, FAULTS_MOST};
use std::marker::Model;

// A fault as the four bytes that stand for it in a tray: the layer (1 block, 2 message), the cause, the number byte, the
// block's place in the payload. They stay bytes, since any four are written and kept.
#[derive(Clone, Copy, PartialEq, Eq, Debug)]
pub struct Fault {
    pub layer: u8,
    pub cause: u8,
    pub number: u8,
    pub place: u8,
}

impl Fault {
    // The fault of a block with this number byte at this place of the payload.
    pub fn new(cause: Cause, number: u8, place: u8) -> Fault
        ensures fault { fault_said result ≡ record { layer = (numbers cause).0; cause = (numbers cause).1; number = number; place = place } }
    {
        Fault {
            layer: cause.layer(),
            cause: cause.number(),
            number,
            place,
        }
    }

    // Its bytes in a tray.
    pub(crate) fn bytes(self) -> [u8; 4]
        ensures { result ≡ fault_bytes (fault_said self) }
    {
        [self.layer, self.cause, self.number, self.place]
    }
}

// In fixed memory: the library crates have no allocator, and no crate of the kit beneath them but std.
// At most nine faults, in the order in which they came.
#[derive(Drop, Debug)]
pub struct Faults {
    items: [Fault; FAULTS_MOST],
    count: usize,
}

impl Model for Faults {
    ghost use Rattle.std.specs.Prelude.{◌≤◌, List, map, take};
    ghost use Rattle.tray.specs.Trays as value;
    ghost use Rattle.tray.specs.Said.{fault_said};

    ghost Value = { List value.Fault };

    ghost view = { λ fs. map fault_said (take fs.count fs.items) };

    ghost invariant = { λ fs. fs.count ≤ 9 };
}

impl Faults {
    // No faults.
    pub fn new() -> Self
        ensures faults { result ≡ [] }
    {
        let none = Fault {
            layer: 0,
            cause: 0,
            number: 0,
            place: 0,
        };
        Faults {
            items: [none; FAULTS_MOST],
            count: 0,
        }
    }

    // The faults that are kept.
    pub(crate) fn as_slice(&self) -> &[Fault]
        ensures faults { map fault_said result.now ≡ self.now }
        ensures few { length result.now ≤ 9 }
    {
        &self.items[..self.count]
    }

    // How many bytes their section of a tray takes: their count, then each.
    pub(crate) fn section_size(&self) -> usize
        ensures size { result ≡ length (fault_section self.now) }
        ensures few { length self.now ≤ 9 }
    {
        1 + FAULT * self.as_slice().len()
    }

    // One more fault behind the others; a tenth is not kept. Answers whether it is kept.
    pub fn push(&mut self, fault: Fault) -> bool
        ensures answer { result ≡ nat_lt (length self.old) 9 }
        ensures faults { self.new ≡ fault_more self.old (fault_said fault) }
        ensures few { (length self.old ≤ 9) × (length self.new ≤ 9) }
    {
        if self.count == FAULTS_MOST {
            return false;
        }
        self.items[self.count] = fault;
        self.count += 1;
        true
    }
}

// How far the entries of a line have been followed.
ghost use Rattle.std.specs.Prelude.{◌≡◌, []};
ghost use Rattle.reader.specs.Stands.{HandsOver};

use tray::{Faults, put_message};

#[derive(Drop)]
pub(crate) struct Progress {
    // where the next message goes in the tray
    pub(crate) at: usize,
    pub(crate) messages: u8,
    pub(crate) skipped: usize,
    pub(crate) faults: Faults,
}

impl Progress {
    // Nothing followed yet: the first message goes behind the count of messages.
    pub(crate) fn new() -> Progress
        ensures { (result.at ≡ 1) × (result.messages ≡ 0) × (result.skipped ≡ 0) × (result.faults ≡ []) }
    {
        Progress {
            at: 1,
            messages: 0,
            skipped: 0,
            faults: Faults::new(),
        }
    }

    // Writes a message behind those that stand in the tray.
    pub(crate) fn hand_over(&mut self, tray: &mut [u8], number: u8, version: u8, bytes: &[u8])
        ensures next { HandsOver tray.old self.old (record { number = number; version = version; bytes = bytes.now }) tray.new self.new }
    {
        if let Some(end) = put_message(tray, self.at, number, version, bytes) {
            self.at = end;
            self.messages = self.messages.saturating_add(1);
        }
    }
}

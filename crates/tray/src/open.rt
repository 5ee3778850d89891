// Opening a tray, and going from entry to entry.
ghost use Rattle.std.specs.Prelude.{◌≡◌, ◌+◌};
ghost use Rattle.refusal.specs.declared.Refusal.TheVariants as refused;
ghost use Rattle.buffers.specs.Places.{unless, told};
ghost use Rattle.tray.specs.Reading.{tray_fault, entries_in};
ghost use Rattle.tray.specs.Model.{bytes_said, ahead, entries_left, Steps};
ghost use Rattle.tray.specs.Laws.{ReadsBack, HasOneReading};
ghost use Rattle.std.specs.Iterator.{at_most};

use super::entry::Entry;
use super::limits::{ENTRIES_MOST, MESSAGES_MOST};
use super::read::{FaultKind, MessageKind, byte_at};
use super::row::Row;
use super::tray::{Entries, Tray};
use refusal::Refusal;

impl<'a> Tray<'a> {
    // The tray that these bytes, the used part alone, are. Refused at the first wrong byte, or at the length where one lacks.
    pub fn open(bytes: &'a [u8]) -> Result<Tray<'a>, Refusal>
        ensures answer { told bytes_said result ≡ unless refused.Tray (tray_fault bytes.now) bytes.now }
        ensures reads_back { ReadsBack bytes.now (told bytes_said result) }
        ensures has_one_reading { HasOneReading bytes.now (told bytes_said result) }
    {
        let count = byte_at(bytes, 0, 0, MESSAGES_MOST)?;
        let messages = Row {
            left: count,
            place: 1,
        };
        let section = messages.end::<MessageKind>(bytes)?;
        let left = byte_at(bytes, section, 0, ENTRIES_MOST - count)?;
        let faults = Row {
            left,
            place: section + 1,
        };
        let end = faults.end::<FaultKind>(bytes)?;
        if end < bytes.len() {
            return Err(Refusal::Tray(end));
        }
        Ok(Tray {
            bytes,
            messages,
            faults,
        })
    }

    // Its entries, in order.
    pub fn entries(&self) -> Entries<'a>
        ensures bytes { result.bytes.now ≡ self.now.bytes.now }
        ensures entries { ahead result ≡ entries_in self.now.bytes.now }
    {
        Entries {
            bytes: self.bytes,
            messages: self.messages,
            faults: self.faults,
        }
    }
}

impl<'a> Iterator for Entries<'a> {
    type Item = Entry<'a>;

    ghost next_gives = { Steps };

    ghost remaining = { λ s. at_most (entries_left s) };

    fn next(&mut self) -> Option<Entry<'a>> {
        let bytes = self.bytes;
        // No `or_else`: where it doesn't call its closure, it promises nothing of the faults that the closure borrows.
        match self.messages.give::<MessageKind>(bytes) {
            Some(message) => Some(message),
            None => self.faults.give::<FaultKind>(bytes),
        }
    }
}

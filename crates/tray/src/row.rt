// Entries of one kind in a row.
ghost use Rattle.std.specs.Prelude.{◌≡◌, ◌+◌, ◌≤◌, ℕ, false, List, length, drop, is_some, Option, IfOk};
ghost use Rattle.refusal.specs.declared.Refusal.TheVariants.{Tray};
ghost use Rattle.buffers.specs.Places.{unless, told, shifted};
ghost use Rattle.tray.specs.Rows.{row_fault, row_end};
ghost use Rattle.tray.specs.Reading.{Item};
ghost use Rattle.tray.specs.Entries.{item, entry_end};
ghost use Rattle.tray.specs.Steps.{Gives};

use super::entry::Entry;
use refusal::Refusal;

// A kind of entry: messages or faults.
pub(crate) trait Kind {
    // the first wrong byte of the entry at the front of some bytes
    ghost wrong: { List ℕ → Option ℕ };

    // how many bytes it takes
    ghost size: { List ℕ → ℕ };

    // the entry itself, at a place
    ghost entry: { ℕ → List ℕ → Item };

    // The entry at a place. Refused at its first wrong byte, or at the tray's length where one lacks.
    fn read<'a>(tray: &'a [u8], place: usize) -> Result<Entry<'a>, Refusal>
        ensures answer { told item result ≡ unless Tray (shifted place (wrong (drop place tray.now))) (entry place (drop place tray.now)) }
        ensures end { IfOk result (λ e. (entry_end e ≡ place + size (drop place tray.now)) × (entry_end e ≤ length tray.now)) };
}

// So many entries in a row, the first of them at a place.
#[derive(Clone, Copy, PartialEq, Eq, Debug)]
pub(crate) struct Row {
    pub(crate) left: u8,
    pub(crate) place: usize,
}

impl Row {
    // The place behind them all. Refused at the first wrong byte.
    pub(crate) fn end<K: Kind>(self, tray: &[u8]) -> Result<usize, Refusal>
        requires within { self.place ≤ length tray.now }
        ensures answer { result ≡ unless Tray (row_fault K.wrong K.size self.left self.place (drop self.place tray.now)) (row_end K.size self.left self.place (drop self.place tray.now)) }
        ensures within { IfOk result (λ p. p ≤ length tray.now) }
    {
        let mut place = self.place;
        for _ in 0..self.left {
            place = K::read(tray, place)?.end();
        }
        Ok(place)
    }

    // Gives the first of them, none where none is left.
    pub(crate) fn give<'a, K: Kind>(&mut self, tray: &'a [u8]) -> Option<Entry<'a>>
        requires right { is_some (row_fault K.wrong K.size self.old.left self.old.place (drop self.old.place tray.now)) ≡ false }
        ensures gives { Gives K.wrong K.size K.entry tray.now self.old result self.new }
    {
        if self.left == 0 {
            return None;
        }
        let entry = K::read(tray, self.place).unwrap();
        self.left -= 1;
        self.place = entry.end();
        Some(entry)
    }
}

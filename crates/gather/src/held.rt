// The question how many parts are held.
ghost use Rattle.std.specs.Prelude.{◌≡◌, ℕ};
ghost use Rattle.gather.specs.Model.{model, watching, gathered};
ghost use Rattle.gather.specs.Serving.{parts_held, held_for};

use super::slot::{Slot, State};
use super::table::Table;

impl Slot {
    // How many parts the slot holds.
    fn count(&self) -> usize
        ensures { result ≡ parts_held (model self.now) }
    {
        match &self.state {
            State::Empty => 0,
            State::Gathering { parts, .. } => parts.iter().filter(|part| part.is_some()).count(),
        }
    }
}

impl Table {
    // How many parts are held for a number, or none where it isn't watched. Parts that are too old are still held: they
    // are dropped when a block of their number is read.
    pub fn held(&self, number: u8) -> Option<usize>
        ensures answer { result ≡ held_for (watching self.now) (gathered self.now) number }
    {
        let i = self.index(number)?;
        Some(self.slots[i].count())
    }
}

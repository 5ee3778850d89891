// Where the slot of a number stands.
ghost use Rattle.std.specs.Prelude.{◌≡◌, ℕ, ◌==◌};
ghost use Rattle.std.specs.List.{position};
ghost use Rattle.gather.specs.Model.{watching};

use super::table::Table;

impl Table {
    // The index of the number's slot, or none where the number isn't watched.
    pub(crate) fn index(&self, number: u8) -> Option<usize>
        ensures { result ≡ position (λ (w : ℕ). w == number) (watching self.now) }
    {
        self.slots[..self.used]
            .iter()
            .position(|slot| slot.number == number)
    }
}

// What a table does with a block.
ghost use Rattle.std.specs.Prelude.{◌≡◌, ℕ};
ghost use Rattle.sending.specs.Model.{means};
ghost use Rattle.gather.specs.Model.{watching, gathered};
ghost use Rattle.gather.specs.Serving.{arrival, reply, written, meant, Short, next_table};

use super::slot::Arrival;
use super::table::Table;
use sending::{Block, MESSAGE_MOST};

impl Table {
    // Takes a block that was read at a frame. A message that it completes is written at the front of `out`.
    pub fn arrive(&mut self, frame: u64, block: &Block<'_>, out: &mut [u8; MESSAGE_MOST]) -> Arrival
        ensures answer { result ≡ arrival (watching self.old) frame (means block.now) (gathered self.old) }
        ensures message { meant (means block.now) result out.new ≡ reply (watching self.old) frame (means block.now) (gathered self.old) }
        ensures short { Short result }
        ensures out { out.new ≡ written (reply (watching self.old) frame (means block.now) (gathered self.old)) out.old }
        ensures next { gathered self.new ≡ next_table (watching self.old) frame (means block.now) (gathered self.old) }
        ensures same { watching self.new ≡ watching self.old }
    {
        match self.index(block.number) {
            Some(i) => {
                // in two steps, since a slot with ghost fields cannot be lent out of `self.slots` in one
                let slots = &mut self.slots;
                slots[i].serve(*block, frame, out)
            }
            None => Arrival::NotWatched,
        }
    }
}

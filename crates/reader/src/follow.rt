// Following one entry of a line.
ghost use Rattle.std.specs.Prelude.{◌≡◌, ℕ, List};
ghost use Rattle.sending.specs.Model.{means};
ghost use Rattle.walk.specs.Entries.{read, item};
ghost use Rattle.gather.specs.Model.{watching, gathered};
ghost use Rattle.reader.specs.Entered.{Good};
ghost use Rattle.reader.specs.Following.{Progress as Followed, follow};
ghost use Rattle.reader.specs.Stands.{Stands, Room};

use super::progress::Progress;
use super::reader::Memory;
use gather::Arrival;
use sending::{Block, MESSAGE_MOST};
use tray::{Cause, Fault};
use walk::Entry;

// The tray and the progress in it stay two arguments: a struct that holds a `&mut` owes a clause on whose it is at every function.
// What a step leaves as it was is said at each: it speaks of before and after, which no invariant can.
impl Memory {
    // Brings a block that was read to the table, and tells what came of it.
    fn follow_block(
        &mut self,
        place: u8,
        block: &Block<'_>,
        tray: &mut [u8],
        progress: &mut Progress,
    )
        requires good { Good (read place (means block.now)) }
        ensures next { (old : List ℕ) (p : Followed) → Room old (read place (means block.now)) p → Stands old tray.old progress.old (gathered self.old.table) p → Stands old tray.new progress.new (gathered self.new.table) (follow (watching self.old.table) self.old.floor (read place (means block.now)) p) }
        ensures same { (watching self.new.table ≡ watching self.old.table) × (self.new.floor ≡ self.old.floor) }
    {
        // in fixed memory: nothing here allocates
        let mut joined = [0u8; MESSAGE_MOST];
        match self.table.arrive(self.floor, block, &mut joined) {
            Arrival::NotWatched => progress.skipped = progress.skipped.saturating_add(1),
            Arrival::Message { length } => progress.hand_over(
                tray,
                block.number,
                block.version,
                &joined[..length],
            ),
            Arrival::Faulty => {
                let _ = progress
                    .faults
                    .push(Fault::new(Cause::Message, block.number, place));
            }
            Arrival::Unfit => {}
            Arrival::Silent => {}
        }
    }

    // Follows one entry: a block reaches the table, a fault is told.
    pub(crate) fn follow_entry(
        &mut self,
        entry: &Entry<'_>,
        tray: &mut [u8],
        progress: &mut Progress,
    )
        requires good { Good (item entry.now) }
        ensures next { (old : List ℕ) (p : Followed) → Room old (item entry.now) p → Stands old tray.old progress.old (gathered self.old.table) p → Stands old tray.new progress.new (gathered self.new.table) (follow (watching self.old.table) self.old.floor (item entry.now) p) }
        ensures same { (watching self.new.table ≡ watching self.old.table) × (self.new.floor ≡ self.old.floor) }
    {
        match entry {
            Entry::Block { place, block } => self.follow_block(*place as u8, block, tray, progress),
            Entry::Fault {
                place,
                cause,
                number,
            } => {
                let _ = progress
                    .faults
                    .push(Fault::new(Cause::Block(*cause), *number, *place as u8));
            }
        }
    }
}

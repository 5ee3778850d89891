// What a slot answers to a block.
ghost use Rattle.std.specs.Prelude.{◌≡◌, ℕ, is_some, IfSome};
ghost use Rattle.sending.specs.Model.{means};
ghost use Rattle.gather.specs.Model.{model};
ghost use Rattle.gather.specs.Watching.{fits_slot};
ghost use Rattle.gather.specs.Keeping.{ended, ended_out, emptied, served, served_out, served_slot};

use super::fitting::Fitting;
use super::slot::{Arrival, Slot, State};
use sending::{Block, LAST_MOST, MESSAGE_MOST, PART_MOST, PARTS_MOST};

impl<'a> Fitting<'a> {
    // The block that was read at a frame, if it can be gathered.
    fn of(block: Block<'a>, frame: u64) -> Option<Fitting<'a>>
        ensures some { is_some result ≡ fits_slot (means block.entry) }
        ensures same { IfSome result (λ fitting. (fitting.block ≡ block.entry) × (fitting.frame ≡ frame)) }
    {
        // said at each place: one line, and no plainer as a function that crates share
        let is_last_of_several = block.part == block.last && block.last != 0;
        let most = if is_last_of_several {
            LAST_MOST
        } else {
            PART_MOST
        };
        if block.part <= block.last
            && usize::from(block.last) < PARTS_MOST
            && block.body.len() <= most
        {
            Some(Fitting { block, frame })
        } else {
            None
        }
    }
}

impl Slot {
    // Joins the parts and drops them, where all are held.
    fn finish(&mut self, out: &mut [u8; MESSAGE_MOST]) -> Arrival
        ensures answer { result ≡ ended (model self.old) }
        ensures out { out.new ≡ ended_out (model self.old) out.old }
        ensures next { model self.new ≡ emptied (model self.old) }
        ensures same { self.new.number ≡ self.old.number }
    {
        if !self.is_full() {
            return Arrival::Silent;
        }
        let arrival = self.judge(out);
        self.state = State::Empty;
        arrival
    }

    // Takes a block at a frame, unless it can't be gathered. A message is written at the front of `out`.
    pub(crate) fn serve(
        &mut self,
        block: Block<'_>,
        frame: u64,
        out: &mut [u8; MESSAGE_MOST],
    ) -> Arrival
        ensures answer { result ≡ served frame (means block.entry) (model self.old) }
        ensures out { out.new ≡ served_out frame (means block.entry) (model self.old) out.old }
        ensures next { model self.new ≡ served_slot frame (means block.entry) (model self.old) }
        ensures same { self.new.number ≡ self.old.number }
    {
        match Fitting::of(block, frame) {
            Some(fitting) => {
                self.keep(&fitting);
                self.finish(out)
            }
            None => Arrival::Unfit,
        }
    }
}

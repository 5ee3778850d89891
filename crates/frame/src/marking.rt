// A frame of a list of groups.
ghost use Rattle.std.specs.Prelude.{◌≡◌, ◌+◌, ◌≤◌, ◌++◌, length, drop, IfOk};
ghost use Rattle.frame.specs.Frames.{wires, Grows, Sealed};
ghost use Rattle.frame.specs.Groups.{filled};
ghost use Rattle.frame.specs.Marking.{groups_blocks, groups_refusals, not_refused, frame_of, refusals_of};
ghost use Rattle.frame.specs.Model.{groups_want};

use super::frame::{OpenFrame, SealedFrame};
use super::wanted::Wanted;
use refusal::Refusal;

impl OpenFrame {
    // Puts one group after the other, and notes the refusal of each, none where it goes in.
    fn put_each(&mut self, groups: &[&[&Wanted<'_>]], refused: &mut [Option<Refusal>])
        requires room { length groups.now ≤ length refused.old }
        ensures size { self.new.size ≡ self.old.size }
        ensures mark { self.new.mark ≡ self.old.mark + length (wires (groups_blocks self.old.size self.old.mark (groups_want groups.now))) }
        ensures blocks { Grows (filled self.old) (filled self.new) (groups_blocks self.old.size self.old.mark (groups_want groups.now)) }
        ensures refused { refused.new ≡ groups_refusals self.old.size self.old.mark (groups_want groups.now) ++ drop (length groups.now) refused.old }
    {
        // By index: over `refused.iter_mut().zip(groups)` the proof learns nothing of what was written into `refused`.
        for (i, group) in groups.iter().enumerate() {
            refused[i] = self.put(group).err();
        }
    }
}

// The sealed frame of `size` bytes that holds exactly the blocks of the groups not refused, in order, with the refusal of
// each other one. Refused where there is no room for each group's refusal, then where no frame has the size.
pub fn mark_frame(
    size: usize,
    groups: &[&[&Wanted<'_>]],
    refused: &mut [Option<Refusal>],
) -> Result<SealedFrame, Refusal>
    ensures answer { result ≡ frame_of (length refused.old) size (groups_want groups.now) }
    ensures holds_the_groups_not_refused { IfOk result (λ payload. Sealed payload (not_refused (groups_want groups.now) refused.new)) }
    ensures refused { refused.new ≡ refusals_of result size (groups_want groups.now) refused.old }
{
    if refused.len() < groups.len() {
        return Err(Refusal::OutputLength(refused.len()));
    }
    let mut frame = OpenFrame::open(size)?;
    frame.put_each(groups, refused);
    Ok(frame.seal())
}

// Putting a group of blocks into an open frame, whole or not at all.
ghost use Rattle.std.specs.Prelude.{◌≡◌, ◌≤◌, MatchResult};
ghost use Rattle.frame.specs.Frames.{Grows};
ghost use Rattle.frame.specs.Groups.{IsOpen, filled, block_answer, putting, added, WholeOrNot, After};
ghost use Rattle.frame.specs.Model.{Goes, Stays, want, wants};

use super::frame::{Fill, OpenFrame};
use super::limits::MEMORY;
use super::wanted::Wanted;
use refusal::Refusal;
use wire::{block_length, write_block};

// Puts the mark back where it was, unless it is kept.
struct PutBack<'a> {
    fill: &'a mut Fill,
    old: usize,
}

impl PutBack<'_> {
    // Leaves the mark where it is.
    fn keep(self)
        ensures { self.exit.0.now ≡ self.entry.fill.now }
    {
        let PutBack { fill: _, old: _ } = self;
    }
}

impl Drop for PutBack<'_> {
    fn drop(self)
        ensures { self.exit.0.now ≡ record { size = self.entry.fill.now.size; mark = self.entry.old } }
    {
        self.fill.mark = self.old;
        let PutBack { fill: _, old: _ } = self;
    }
}

impl Fill {
    // One block at the mark, the i-th of its group, or its refusal, with nothing changed.
    fn put_block(
        &mut self,
        bytes: &mut [u8; MEMORY],
        wanted: &Wanted<'_>,
        i: usize,
    ) -> Result<(), Refusal>
        requires room { self.old.size ≤ 60 }
        requires within { self.old.mark ≤ self.old.size }
        ensures answer { result ≡ block_answer self.old.size self.old.mark i (want wanted.now) }
        ensures effect { MatchResult result (λ _. Goes self.old bytes.old (want wanted.now) self.new bytes.new) (λ _. Stays self.old bytes.old self.new bytes.new) }
    {
        let length = block_length(wanted.sending, wanted.block)?;
        if length > self.size - self.mark {
            return Err(Refusal::FrameEnd(i));
        }
        self.mark = write_block(wanted.sending, wanted.block, bytes, self.mark)?;
        Ok(())
    }
}

impl OpenFrame {
    // Puts the blocks of a group at the mark, in order, or none of them. The first refusal counts: a block above its
    // sending's last, then one past the frame's end. On every way out of a refused group the guard puts the mark back.
    pub fn put(&mut self, group: &[&Wanted<'_>]) -> Result<(), Refusal>
        ensures answer { result ≡ putting self.old (wants group.now) }
        ensures whole_or_not_at_all { WholeOrNot self.old (wants group.now) result }
        ensures frame { After self.old (wants group.now) result self.new }
        ensures blocks { Grows (filled self.old) (filled self.new) (added self.old (wants group.now)) }
        ensures is_open { IsOpen self.old × IsOpen self.new }
    {
        let OpenFrame { bytes, fill } = self;
        let old = fill.mark;
        let guard = PutBack { fill, old };
        for (i, wanted) in group.iter().enumerate() {
            guard.fill.put_block(bytes, wanted, i)?;
        }
        guard.keep();
        Ok(())
    }
}

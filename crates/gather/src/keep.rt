// Keeping the part of a block in a slot.
ghost use Rattle.std.specs.Prelude.{◌≡◌, ℕ, ◌<◌, map, length, take, Some, slice_set};
ghost use Rattle.sending.specs.Model.{means};
ghost use Rattle.gather.specs.Model.{model};
ghost use Rattle.gather.specs.Keeping.{fresh_part, renewed, noted, with_part};

use super::fitting::Fitting;
use super::slot::{Part, Slot, State};
use sending::{PART_MOST, PARTS_MOST};

// A part is dropped once it is older than this, in frames.
const AGE_MOST: u64 = 255;

// The part, unless it is too old.
fn still_fresh(part: Option<Part>, frame: u64) -> Option<Part>
    ensures { result ≡ fresh_part frame part }
{
    part.filter(|held| frame.saturating_sub(held.frame) <= AGE_MOST)
}

// Drops each part that is too old.
fn drop_old(parts: &mut [Option<Part>; PARTS_MOST], frame: u64)
    ensures { parts.new ≡ map (fresh_part frame) parts.old }
{
    for part in parts.iter_mut() {
        *part = still_fresh(*part, frame);
    }
}

impl Fitting<'_> {
    // The place of its part.
    fn place(&self) -> usize
        ensures place { result ≡ self.now.block.part }
        ensures few { result < 4 }
    {
        usize::from(self.block.part)
    }

    // Puts its part among the others.
    fn put_part(&self, parts: &mut [Option<Part>; PARTS_MOST])
        ensures { parts.new ≡ slice_set parts.old self.now.block.part (Some (record { size = length self.now.block.body.now; frame = self.now.frame; check = self.now.block.check })) }
    {
        parts[self.place()] = Some(Part {
            size: self.block.body.len(),
            frame: self.frame,
            check: self.block.check,
        });
    }

    // Writes its body over the first bytes.
    fn put_body(&self, bytes: &mut [u8; PART_MOST])
        ensures { take (length self.now.block.body.now) bytes.new ≡ self.now.block.body.now }
    {
        let body = self.block.body;
        bytes[..body.len()].copy_from_slice(body);
    }
}

impl State {
    // Gathers for the block: what is of another version or last number is dropped, and what is too old.
    fn renew(&mut self, fitting: &Fitting<'_>)
        ensures { self.new ≡ renewed fitting.now.frame fitting.now.block.version fitting.now.block.last self.old }
    {
        match (self, fitting.block) {
            (
                &mut State::Gathering {
                    version,
                    last,
                    ref mut parts,
                },
                b,
            ) if version == b.version && last == b.last => drop_old(parts, fitting.frame),
            (state, b) => *state = State::Gathering {
                version: b.version,
                last: b.last,
                parts: [None; PARTS_MOST],
            },
        }
    }

    // Notes the block's part as held.
    fn note(&mut self, fitting: &Fitting<'_>)
        ensures { self.new ≡ noted fitting.now.block.part (record { size = length fitting.now.block.body.now; frame = fitting.now.frame; check = fitting.now.block.check }) self.old }
    {
        if let State::Gathering { parts, .. } = self {
            fitting.put_part(parts);
        }
    }
}

impl Slot {
    // Keeps the block's part, once what the block makes stale is dropped.
    pub(crate) fn keep(&mut self, fitting: &Fitting<'_>)
        ensures number { self.new.number ≡ self.old.number }
        ensures parts { model self.new ≡ with_part fitting.now.frame (means fitting.now.block) (model self.old) }
    {
        self.state.renew(fitting);
        self.state.note(fitting);
        fitting.put_body(&mut self.bytes[fitting.place()]);
    }
}

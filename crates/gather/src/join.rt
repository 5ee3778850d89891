// Joining the parts of a slot.
ghost use Rattle.std.specs.Prelude.{◌≡◌, ℕ, ◌≤◌, length, min, take, ◌||◌, ◌==◌};
ghost use Rattle.crc.specs.Crc.{crc};
ghost use Rattle.gather.specs.Gathering.{bears, full, whole};
ghost use Rattle.gather.specs.Model.{model, room};
ghost use Rattle.gather.specs.Keeping.{verdict, verdict_out};

use super::joined::Joined;
use super::slot::{Arrival, Part, Slot, State};
use crc::crc32;
use sending::{LAST_MOST, MESSAGE_MOST, PART_MOST};

// The most bytes that are kept of part k.
fn part_most(k: usize) -> usize
    ensures { result ≡ room k }
{
    if k == 3 { LAST_MOST } else { PART_MOST }
}

impl Part {
    // The bytes of part k.
    fn body<'a>(&self, k: usize, bytes: &'a [u8; PART_MOST]) -> &'a [u8]
        ensures value { result.now ≡ take (min self.now.size (room k)) bytes.now }
        ensures short { length result.now ≤ room k }
    {
        &bytes[..self.size.min(part_most(k))]
    }
}

impl Slot {
    // Whether every part up to the last is held.
    pub(crate) fn is_full(&self) -> bool
        ensures { result ≡ full (model self.now).last (model self.now).held }
    {
        match &self.state {
            State::Empty => false,
            State::Gathering { last, parts, .. } => parts[..=usize::from(*last)]
                .iter()
                .all(|part| part.is_some()),
        }
    }

    // The bytes of the parts up to the last.
    fn joined(&self) -> Joined
        ensures { result ≡ whole (model self.now).last (model self.now).held }
    {
        let mut joined = Joined::new();
        if let State::Gathering { last, parts, .. } = &self.state {
            for (k, (part, bytes)) in parts[..=usize::from(*last)]
                .iter()
                .zip(&self.bytes)
                .enumerate()
            {
                if let Some(part) = part {
                    joined.push(part.body(k, bytes));
                }
            }
        }
        joined
    }

    // Whether the joined bytes pass the message CRC, which the last of several parts carries.
    fn passes(&self, joined: &Joined) -> bool
        ensures { result ≡ ((model self.now).last == 0 || bears ((model self.now).held (model self.now).last) (crc joined.now)) }
    {
        match &self.state {
            State::Empty => true,
            State::Gathering { last, parts, .. } => *last == 0
                || parts[usize::from(*last)]
                    .and_then(|part| part.check)
                    .is_some_and(|check| check == crc32(joined.bytes())),
        }
    }

    // Joins parts that are all held, unless they are several and fail the message CRC.
    pub(crate) fn judge(&self, out: &mut [u8; MESSAGE_MOST]) -> Arrival
        ensures answer { result ≡ verdict (model self.now).last (model self.now).held }
        ensures out { out.new ≡ verdict_out (model self.now).last (model self.now).held out.old }
    {
        let joined = self.joined();
        if !self.passes(&joined) {
            return Arrival::Faulty;
        }
        Arrival::Message {
            length: joined.put(out),
        }
    }
}

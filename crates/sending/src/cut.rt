// A sending of a message that is cut.
ghost use Rattle.std.specs.Prelude.{◌≡◌, ℕ, ◌-◌, ◌≤◌, length, IfOk};
ghost use Rattle.sending.specs.Sendings.{IsSending};
ghost use Rattle.sending.specs.Cuts.{room_bytes, capacity, fitting, part_count, cut_parts, cutting, CutRight};
ghost use Rattle.sending.specs.Storage.{Plain};

use super::given::not_of_a_sending;
use super::limits::{BESIDE_BODY, PARTS_MOST, WORD};
use super::parts::Parts;
use super::room::Room;
use super::sending::Sending;
use refusal::Refusal;

impl Room {
    // How many bytes a part has at most, where its block carries no message CRC.
    fn width(self) -> usize
        ensures { result ≡ room_bytes self - 7 }
    {
        self.bytes() - BESIDE_BODY
    }

    // How many bytes of a message go into n parts. The last of several has the message CRC beside it.
    fn fits_into(self, n: usize) -> usize
        requires some { 1 ≤ n }
        requires few { n ≤ 4 }
        ensures { result ≡ fitting (room_bytes self) n }
    {
        let width = self.width();
        if n == 1 { width } else { n * width - WORD }
    }

    // Into how many parts a message of this length is cut.
    fn parts_for(self, length: usize) -> usize
        ensures { result ≡ part_count (room_bytes self) length }
    {
        // n is a count of parts, and no index
        for n in 1..PARTS_MOST {
            if length <= self.fits_into(n) {
                return n;
            }
        }
        PARTS_MOST
    }

    // The parts of a message that is not too long.
    fn cut(self, message: &[u8]) -> Parts
        requires { length message.now ≤ capacity (room_bytes self) 4 }
        ensures parts { result ≡ cut_parts (room_bytes self) message.now }
        ensures plain { Plain result }
    {
        let mut parts = Parts::new();
        let mut rest = message;
        // by count, and not by `chunks`: the last part may be empty
        for _i in 1..self.parts_for(message.len()) {
            let (part, others) = rest.split_at(self.width().min(rest.len()));
            parts.push(part);
            rest = others;
        }
        parts.push(rest);
        parts
    }
}

impl Sending {
    // A message cut into parts: as few as are enough, each but the last as long as it can be.
    pub fn cut(number: u8, version: u8, message: &[u8], room: Room) -> Result<Sending, Refusal>
        ensures answer { result ≡ cutting (room_bytes room) number version message.now }
        ensures cut_is_smallest { CutRight (room_bytes room) message.now result }
        ensures rule { IfOk result IsSending }
    {
        if message.len() > room.fits_into(PARTS_MOST) {
            return Err(Refusal::TooLong(message.len()));
        }
        if not_of_a_sending(number, version, 1) {
            return Err(Refusal::NotOfASending);
        }
        Ok(Sending {
            number,
            version,
            parts: room.cut(message),
        })
    }
}

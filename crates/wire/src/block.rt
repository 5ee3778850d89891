// A block in the wire form.
ghost use Rattle.std.specs.Prelude.{◌≡◌, length};
ghost use Rattle.sending.specs.Sendings.{IsSending};
ghost use Rattle.sending.specs.Wanted.{wanted};
ghost use Rattle.wire.specs.Wire.{head, covered, block_bytes};

use crc::crc32;
use refusal::Refusal;
use sending::{
    BEFORE_BODY, BESIDE_BODY, Block, PART_WEIGHT, Sending, UNCOUNTED, VERSION_WEIGHT, WORD,
};
use std::marker::Model;

// A block whose numbers have room in the wire form. Clauses see it as a value.
#[derive(Drop)]
pub(crate) struct WireBlock<'a> {
    block: Block<'a>,
}

impl<'a> Model for WireBlock<'a> {
    ghost use Rattle.sending.specs.Sendings as value;
    ghost use Rattle.sending.specs.Model.{means};
    ghost use Rattle.wire.specs.Wire.{Fits};

    ghost Value = { value.Block };

    ghost view = { λ w. means w.block };

    ghost invariant = { λ w. Fits (means w.block) };
}

impl<'a> WireBlock<'a> {
    // Block i of a sending. Refused above the last.
    pub(crate) fn of(sending: &'a Sending, i: u8) -> Result<Self, Refusal>
        ensures block { result ≡ wanted sending.now i }
        ensures rule { IsSending sending.now }
    {
        let block = sending.block(i)?;
        Ok(WireBlock { block })
    }

    // How many bytes it takes.
    pub(crate) fn length(&self) -> usize
        ensures { result ≡ length (block_bytes self.now) }
    {
        match self.block.check {
            None => BESIDE_BODY + self.block.body.len(),
            Some(_) => BESIDE_BODY + self.block.body.len() + WORD,
        }
    }

    // The three bytes before the body.
    fn opening(&self) -> [u8; BEFORE_BODY]
        ensures { result ≡ head self.now }
    {
        let block = &self.block;
        let follows = (self.length() - UNCOUNTED) as u8;
        [
            block.number,
            follows,
            block.version * VERSION_WEIGHT + block.part * PART_WEIGHT + block.last,
        ]
    }

    // Writes all of it but its own CRC.
    fn write_covered(&self, place: &mut [u8])
        requires { length place.old ≡ length (covered self.now) }
        ensures { place.new ≡ covered self.now }
    {
        let (opening, others) = place.split_at_mut(BEFORE_BODY);
        let (body, check) = others.split_at_mut(self.block.body.len());
        opening.copy_from_slice(&self.opening());
        body.copy_from_slice(self.block.body);
        if let Some(crc) = self.block.check {
            check.copy_from_slice(&crc.to_be_bytes());
        }
    }

    // Writes it into a place of just its length.
    pub(crate) fn write(&self, place: &mut [u8])
        requires { length place.old ≡ length (block_bytes self.now) }
        ensures { place.new ≡ block_bytes self.now }
    {
        let (covered, word) = place.split_at_mut(place.len() - WORD);
        self.write_covered(covered);
        word.copy_from_slice(&crc32(covered).to_be_bytes());
    }
}

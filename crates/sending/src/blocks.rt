// The blocks of a sending.
ghost use Rattle.std.specs.Prelude.{◌≡◌, OnOk};
ghost use Rattle.sending.specs.Sendings.{IsSending, block, last_part};
ghost use Rattle.sending.specs.Model.{shown};
ghost use Rattle.sending.specs.Wanted.{wanted};

use super::block::Block;
use super::sending::Sending;
use crc::crc32;
use refusal::Refusal;

impl Sending {
    // The number of its last part.
    fn last(&self) -> u8
        ensures { result ≡ last_part self.now }
    {
        (self.parts.count() - 1) as u8
    }

    // The message CRC, where block i carries it: the last of several does.
    fn check(&self, i: u8) -> Option<u32>
        ensures { result ≡ (block self.now i).check }
    {
        if i > 0 && i == self.last() {
            Some(crc32(self.message()))
        } else {
            None
        }
    }

    // Block i: its part with what goes before and behind it. Refused above the last.
    pub fn block(&self, i: u8) -> Result<Block<'_>, Refusal>
        ensures answer { shown result ≡ wanted self.now i }
        ensures rule { IsSending self.now }
    {
        let body = self
            .parts
            .get(usize::from(i))
            .ok_or(Refusal::NotOfASending)?;
        Ok(Block {
            number: self.number,
            version: self.version,
            part: i,
            last: self.last(),
            body,
            check: self.check(i),
        })
    }
}

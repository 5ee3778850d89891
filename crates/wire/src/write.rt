// The bytes of a block.
ghost use Rattle.std.specs.Prelude.{◌≡◌, length, IfOk};
ghost use Rattle.sending.specs.Sendings.{IsSending, IsBlockOf, block};
ghost use Rattle.wire.specs.Writing.{wanted_size, writing, written};

use super::block::WireBlock;
use refusal::Refusal;
use sending::{BESIDE_BODY, Sending};

// How many bytes block i takes. Refused above the last.
pub fn block_length(sending: &Sending, i: u8) -> Result<usize, Refusal>
    ensures answer { result ≡ wanted_size sending.now i }
    ensures rule { IsSending sending.now }
{
    let block = WireBlock::of(sending, i)?;
    Ok(block.length())
}

// Writes block i at a place of a buffer, and answers where it ends. Refused where the buffer is too short, then above the
// last: to begin with, one above the last counts as a block without body, the shortest there is.
pub fn write_block(sending: &Sending, i: u8, out: &mut [u8], at: usize) -> Result<usize, Refusal>
    ensures answer { result ≡ writing sending.now i at (length out.old) }
    ensures out { out.new ≡ written sending.now i at out.old }
    ensures of_a_sending { IfOk result (λ _. IsBlockOf sending.now (block sending.now i)) }
    ensures rule { IsSending sending.now }
{
    let size = block_length(sending, i).unwrap_or(BESIDE_BODY);
    if out.len().saturating_sub(at) < size {
        return Err(Refusal::OutputLength(out.len()));
    }
    let block = WireBlock::of(sending, i)?;
    let end = at + size;
    block.write(&mut out[at..end]);
    Ok(end)
}

// Reading the bytes of a payload off a line, by cuts.
ghost use Rattle.std.specs.Prelude.{◌≡◌, ℕ, ◌+◌, ◌*◌, ◌/◌, ◌^◌, ◌<◌, ◌≤◌, ◌++◌, length, drop, take, sum, true};
ghost use Rattle.line.specs.Lines.{good_count, size_of, put, line_fault, read_answer, read_buffer};
ghost use Rattle.line.specs.Symbols.{level_at, value_of, gathered, payload_of};
ghost use Rattle.line.specs.Scales.{payload_by, gathered_into, found_by};

use crate::checks::{PAYLOAD_ROOM, read_test};
use crate::depth::Depth;
use crate::symbols::{total, value, weight};
use refusal::Refusal;
use std::slice::from_ref;

// The cuts between the values of a symbol: one between two values, three between four. A symbol is read as the number of
// cuts that its doubled level reaches. No const parameter, as at a palette.
#[derive(Clone, Copy, PartialEq, Eq, Debug)]
pub enum Cuts {
    One(u32),
    Three([u32; 3]),
}

// A line, and the cuts that it is read by as a list, with the number of bits of a symbol.
#[derive(Clone, Copy)]
struct Scale<'a> {
    line: &'a [u16],
    cuts: &'a [u32],
    bits: usize,
    ghost count: { good_count (length line.now) ≡ true },
    ghost values: { (1 ≤ bits) × (bits ≤ 2) × (length cuts.now + 1 ≡ 2 ^ bits) },
}

impl<'a> Scale<'a> {
    // The byte that the values of its symbols write, at so many samples to a symbol.
    fn byte(&self, samples: &[u16], width: usize) -> u8
        requires width { (1 ≤ width) × (width ≤ 40) }
        requires whole { length samples.now ≡ 8 / self.now.bits * width }
        ensures { result ≡ gathered (2 ^ self.now.bits) (λ t. value_of self.now.cuts.now (2 * sum (take width (drop (t * width) samples.now)))) (8 / self.now.bits) }
    {
        let base = self.cuts.len() as u32 + 1;
        let mut all: u32 = 0;
        for symbol in samples.chunks_exact(width) {
            all = all * base + value(2 * total(symbol), self.cuts) as u32;
        }
        all as u8
    }

    // Fills the payload with what the values of the line's symbols write.
    fn fill(&self, payload: &mut [u8])
        requires whole { length payload.old ≡ 30 * self.now.bits }
        ensures { payload.new ≡ payload_of self.now.bits (λ k. value_of self.now.cuts.now (2 * level_at self.now.line.now k)) }
    {
        let width = weight(self.line.len()) as usize;
        let size = 8 / self.bits * width;
        // by place: of what a `zip` with `iter_mut` writes, a proof knows nothing
        for (j, to) in payload.iter_mut().enumerate() {
            *to = self.byte(&self.line[j * size..(j + 1) * size], width);
        }
    }

    // Writes the payload that the line is read as to the front of the buffer, and answers its length.
    fn gather(&self, payload: &mut [u8]) -> usize
        requires room { 60 ≤ length payload.old }
        ensures length { result ≡ 30 * self.now.bits }
        ensures payload { payload.new ≡ payload_of self.now.bits (λ k. value_of self.now.cuts.now (2 * level_at self.now.line.now k)) ++ drop (30 * self.now.bits) payload.old }
    {
        let size = 30 * self.bits;
        self.fill(&mut payload[..size]);
        size
    }
}

// Writes the payload that the cuts read to the front of the buffer, and answers its length; a buffer under 60 bytes stays.
fn gather(line: &[u16], cuts: &Cuts, payload: &mut [u8]) -> Option<usize>
    requires count { good_count (length line.now) ≡ true }
    ensures answer { result ≡ size_of (gathered_into (length payload.old) (payload_by cuts.now (level_at line.now))) }
    ensures payload { payload.new ≡ put (gathered_into (length payload.old) (payload_by cuts.now (level_at line.now))) payload.old }
{
    if payload.len() < PAYLOAD_ROOM {
        return None;
    }
    // a call for each kind, so that each is compiled for its number of cuts: one call reads 1.1 to 1.7 times slower
    match cuts {
        Cuts::One(cut) => {
            let cuts = from_ref(cut);
            let scale = Scale {
                line,
                cuts,
                bits: 1,
            };
            Some(scale.gather(payload))
        }
        Cuts::Three(cuts) => Some(Scale {
            line,
            cuts,
            bits: 2,
        }
        .gather(payload)),
    }
}

// Reads a line by the cuts that a system has for it, if it has found its run-in.
pub fn read_by(
    depth: Depth,
    line: &[u16],
    cuts: Option<Cuts>,
    payload: &mut [u8],
) -> Result<Option<usize>, Refusal>
    ensures answer { result ≡ read_answer (line_fault depth line.now) (found_by cuts (level_at line.now)) (length payload.old) }
    ensures payload { payload.new ≡ read_buffer result (found_by cuts (level_at line.now)) payload.old }
{
    read_test(depth, line, payload.len())?;
    match cuts {
        Some(cuts) => Ok(gather(line, &cuts, payload)),
        None => Ok(None),
    }
}

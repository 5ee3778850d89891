// Drawing a payload into a line, with a level for each value of a symbol.
ghost use Rattle.std.specs.Prelude.{◌≡◌, ◌*◌, ◌^◌, ◌<◌, ◌≤◌, true, length};
ghost use Rattle.line.specs.Lines.{good_count, draw_answer, draw_line};
ghost use Rattle.line.specs.Symbols.{Alphabet, symbol_of, drawn_by};
ghost use Rattle.line.specs.Scales.{palette_levels, palette_bits, draws_bits};

use crate::checks::{begins, good_count};
use crate::symbols::weight;
use refusal::Refusal;

// The level of each value of a symbol: two values are one bit, four are two.
// No const parameter: a symbol has one bit or two and no other number, which an enum says and a number would not.
#[derive(Clone, Copy, PartialEq, Eq, Debug)]
pub enum Palette {
    Two([u16; 2]),
    Four([u16; 4]),
}

impl Palette {
    // The level of each value, from 0 on.
    fn levels(&self) -> &[u16]
        ensures list { result.now ≡ palette_levels self.now }
        ensures size { length result.now ≡ 2 ^ palette_bits self.now }
    {
        match self {
            Palette::Two(levels) => levels,
            Palette::Four(levels) => levels,
        }
    }

    // How many bits a symbol has: a table, and no `as`, since the cases have fields.
    fn bits(&self) -> usize
        ensures answer { result ≡ palette_bits self.now }
        ensures few { (1 ≤ result) × (result ≤ 2) }
    {
        match self {
            Palette::Two(_) => 1,
            Palette::Four(_) => 2,
        }
    }
}

// Symbol k of a payload.
fn symbol_of(payload: &[u8], bits: usize, base: usize, k: usize) -> usize
    requires letters { Alphabet bits base }
    requires place { k < 240 }
    requires whole { length payload.now ≡ 30 * bits }
    ensures { (result ≡ symbol_of bits payload.now k) × (result < base) }
{
    let per = 8 / bits;
    (payload[k / per] as usize >> (8 - bits * (k % per + 1))) % base
}

// Fills a line with the levels of a payload's symbols.
fn fill(palette: &Palette, payload: &[u8], line: &mut [u16])
    requires whole { length payload.now ≡ 30 * palette_bits palette.now }
    requires count { good_count (length line.old) ≡ true }
    ensures { line.new ≡ drawn_by (palette_bits palette.now) (palette_levels palette.now) payload.now (length line.old) }
{
    let levels = palette.levels();
    let bits = palette.bits();
    let width = weight(line.len()) as usize;
    for (i, sample) in line.iter_mut().enumerate() {
        *sample = levels[symbol_of(payload, bits, levels.len(), i / width)];
    }
}

// Draws a payload of 30 bytes by two levels, or of 60 by four.
pub fn draw(palette: Palette, payload: &[u8], line: &mut [u16]) -> Result<(), Refusal>
    ensures answer { result ≡ draw_answer (draws_bits (palette_bits palette)) payload.now (length line.old) }
    ensures line { line.new ≡ draw_line result (drawn_by (palette_bits palette) (palette_levels palette) payload.now (length line.old)) line.old }
{
    if !good_count(line.len()) {
        return Err(Refusal::SampleCount(line.len()));
    }
    if payload.len() != 30 * palette.bits() || !begins(payload) {
        return Err(Refusal::Payload);
    }
    fill(&palette, payload, line);
    Ok(())
}

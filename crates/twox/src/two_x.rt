// The line system 2X.
ghost use Rattle.line.specs.Scales.{draws_bits};
ghost use Rattle.line.specs.Symbols.{drawn_by, weight, level_at};
ghost use Rattle.twox.specs.Levels.{two_levels};
ghost use Rattle.twox.specs.TwoX.{two_found, TwoCarries};
ghost use Rattle.twox.specs.TwoLaws.{two_drawing, two_reading, two_answers};
ghost use Rattle.std.specs.Prelude.{length, refl};
ghost use Rattle.twox.specs.Table.{two_right};
ghost use Rattle.std.proofs.Common.{rules};

use crate::cuts::{cuts, levels};
use line::depth::Depth;
use line::drawing::{Palette, draw};
use line::reading::read_by;
use refusal::Refusal;
use system::system::LineSystem;

// 2X at a depth.
#[derive(Clone, Copy, PartialEq, Eq, Debug)]
pub struct TwoX {
    pub(crate) depth: Depth,
}

impl LineSystem for TwoX {
    ghost depth = { λ s. s.depth };

    ghost draws = { λ _ n. draws_bits 2 n };

    ghost carries = { λ s line p. TwoCarries s.depth line p };

    ghost tolerates = { λ s line p. TwoCarries s.depth line p };

    ghost drawn = { λ s p count. drawn_by 2 (two_levels s.depth) p count };

    ghost found = { λ s line. two_found s.depth line };

    ghost lengths = { Prim.search rules };

    ghost some = { λ s. (60, refl) };

    ghost legal = { Prim.search rules };

    ghost drawing = { λ s p count d ok. two_drawing s.depth p count d ok };

    ghost tolerance = { Prim.search rules };

    ghost reading = { λ s line p c. two_reading s.depth line p c };

    ghost answers = { λ s line p f. two_answers (two_levels s.depth) (weight (length line)) (level_at line) p (two_right s.depth).four f };

    fn depth(&self) -> Depth {
        self.depth
    }

    fn draws(&self, len: usize) -> bool {
        len == 60
    }

    fn draw(&self, payload: &[u8], line: &mut [u16]) -> Result<(), Refusal> {
        draw(Palette::Four(levels(self.depth)), payload, line)
    }

    fn read(&self, line: &[u16], payload: &mut [u8]) -> Result<Option<usize>, Refusal> {
        read_by(self.depth, line, cuts(self.depth, line), payload)
    }
}

// The line system 1X.
ghost use Rattle.std.specs.Prelude.{◌≡◌, [], ◌∷◌, length, refl};
ghost use Rattle.line.specs.Scales.{draws_bits};
ghost use Rattle.line.specs.Symbols.{drawn_by, weight, level_at};
ghost use Rattle.onex.specs.OneX.{one_found, OneCarries};
ghost use Rattle.onex.specs.OneLaws.{one_drawing, one_reading, one_answers};
ghost use Rattle.line.specs.Depths.{unit_of};
ghost use Rattle.std.proofs.Common.{rules};

use crate::levels::Levels;
use crate::measure::cuts;
use line::depth::Depth;
use line::drawing::{Palette, draw};
use line::reading::read_by;
use refusal::Refusal;
use system::system::LineSystem;

// 1X at the depth of a pair of levels, which it draws with. What it reads doesn't depend on the pair.
#[derive(Clone, Copy, PartialEq, Eq, Debug)]
pub struct OneX {
    pub(crate) levels: Levels,
}

impl LineSystem for OneX {
    ghost depth = { λ s. s.levels.depth };

    ghost draws = { λ _ n. draws_bits 1 n };

    ghost carries = { λ s line p. OneCarries s.levels.depth line p };

    ghost tolerates = { λ s line p. OneCarries s.levels.depth line p };

    ghost drawn = { λ s p count. drawn_by 1 (s.levels.zero ∷ s.levels.one ∷ []) p count };

    ghost found = { λ s line. one_found s.levels.depth line };

    ghost lengths = { Prim.search rules };

    ghost some = { λ s. (30, refl) };

    ghost legal = { Prim.search rules };

    ghost drawing = { λ s p count d ok. one_drawing s.levels.depth s.levels.zero s.levels.one s.levels.pair p count d ok };

    ghost tolerance = { Prim.search rules };

    ghost reading = { λ s line p c. one_reading s.levels.depth line p c };

    ghost answers = { λ s line p f. one_answers (unit_of s.levels.depth) (weight (length line)) (level_at line) p f };

    fn depth(&self) -> Depth {
        self.levels.depth
    }

    fn draws(&self, len: usize) -> bool {
        len == 30
    }

    fn draw(&self, payload: &[u8], line: &mut [u16]) -> Result<(), Refusal> {
        draw(
            Palette::Two([self.levels.zero, self.levels.one]),
            payload,
            line,
        )
    }

    fn read(&self, line: &[u16], payload: &mut [u8]) -> Result<Option<usize>, Refusal> {
        read_by(
            self.levels.depth,
            line,
            cuts(self.levels.depth, line),
            payload,
        )
    }
}

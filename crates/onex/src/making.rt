// Making a pair of levels, and the system 1X of a pair.
ghost use Rattle.std.specs.Prelude.{◌≡◌, ℕ, ◌*◌, true, false, List, Ok, Err};
ghost use Rattle.refusal.specs.declared.Refusal.TheVariants.{Levels as NotAllowed};
ghost use Rattle.line.specs.Depths.{unit_of};
ghost use Rattle.onex.specs.Pairs.{allowed};
ghost use Rattle.onex.specs.OneX.{OneCarries};
ghost use Rattle.onex.specs.contracts.one_x.OneXLineSystem.TheImpl.{ghosts as one_system};

use crate::levels::Levels;
use crate::one_x::OneX;
use line::depth::Depth;
use refusal::Refusal;

impl Levels {
    // The pair of levels for 0 and 1, refused where it is not allowed at the depth.
    pub fn new(depth: Depth, zero: u16, one: u16) -> Result<Levels, Refusal>
        ensures answer { elim result [ Ok s ↦ (s.depth ≡ depth) × (s.zero ≡ zero) × (s.one ≡ one) | Err e ↦ (e ≡ NotAllowed) × (allowed (unit_of depth) zero one ≡ false) ] }
    {
        let q = depth.unit() as u32;
        let z = zero as u32;
        let o = one as u32;
        if (4 * q <= z && z <= 16 * q) && ((20 * q <= o && o <= 100 * q) && z + 16 * q <= o) {
            Ok(Levels { depth, zero, one })
        } else {
            Err(Refusal::Levels)
        }
    }

    // The levels that lines are usually drawn with: 4 units for 0, and 40 for 1.
    pub fn usual(depth: Depth) -> Levels
        ensures answer { (result.depth ≡ depth) × (result.zero ≡ 4 * unit_of depth) × (result.one ≡ 40 * unit_of depth) }
    {
        let q = depth.unit();
        Levels {
            depth,
            zero: 4 * q,
            one: 40 * q,
        }
    }

    pub fn zero(&self) -> u16
        ensures answer { result ≡ self.now.zero }
    {
        self.zero
    }

    pub fn one(&self) -> u16
        ensures answer { result ≡ self.now.one }
    {
        self.one
    }
}

impl OneX {
    // 1X that draws with these levels, and tolerates at their depth what 1X tolerates with any.
    pub fn new(levels: Levels) -> OneX
        ensures answer { result.levels ≡ levels }
        ensures tolerance { (line p : List ℕ) → (one_system.tolerates result line p → OneCarries levels.depth line p) × (OneCarries levels.depth line p → one_system.tolerates result line p) }
    {
        OneX { levels }
    }
}

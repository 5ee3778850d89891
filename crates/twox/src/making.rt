// Making the system 2X.
ghost use Rattle.std.specs.Prelude.{◌≡◌, ℕ, List};
ghost use Rattle.twox.specs.TwoX.{TwoCarries};
ghost use Rattle.twox.specs.contracts.two_x.TwoXLineSystem.TheImpl.{ghosts as two_system};

use crate::two_x::TwoX;
use line::depth::Depth;

impl TwoX {
    // 2X at a depth, with the tolerance of 2X.
    pub fn new(depth: Depth) -> TwoX
        ensures answer { result.depth ≡ depth }
        ensures tolerance { (line p : List ℕ) → (two_system.tolerates result line p → TwoCarries depth line p) × (TwoCarries depth line p → two_system.tolerates result line p) }
    {
        TwoX { depth }
    }
}

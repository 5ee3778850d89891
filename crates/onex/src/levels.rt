// The pair of levels that 1X is drawn with.
ghost use Rattle.std.specs.Prelude.{◌≡◌, true};
ghost use Rattle.line.specs.Depths.{unit_of};
ghost use Rattle.onex.specs.Pairs.{allowed};

use line::depth::Depth;

// A depth with the levels for 0 and for 1. Every pair that exists is allowed at its depth.
#[derive(Clone, Copy, PartialEq, Eq, Debug)]
pub struct Levels {
    pub(crate) depth: Depth,
    pub(crate) zero: u16,
    pub(crate) one: u16,
    ghost pair: { allowed (unit_of depth) zero one ≡ true },
}

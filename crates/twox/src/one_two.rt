// 1X, else 2X, with the levels that 1X is usually drawn with.
ghost use Rattle.std.specs.Prelude.{◌≡◌, ◌*◌};
ghost use Rattle.line.specs.Depths.{unit_of};

use crate::two_x::TwoX;
use line::depth::Depth;
use onex::levels::Levels;
use onex::one_x::OneX;
use system::first_else::FirstElse;
use system::joins::first_else;

pub type OneElseTwo = FirstElse<OneX, TwoX>;

// 1X with levels of 4 and 40 units, else 2X.
pub fn one_else_two(depth: Depth) -> OneElseTwo
    ensures one { (result.first.levels.depth ≡ depth) × (result.first.levels.zero ≡ 4 * unit_of depth) × (result.first.levels.one ≡ 40 * unit_of depth) }
    ensures two { result.second.depth ≡ depth }
{
    first_else(OneX::new(Levels::usual(depth)), TwoX::new(depth)).unwrap()
}

// What must hold between two systems before they may be read one after the other, as the promise of a call over both.
ghost use Rattle.std.specs.Prelude.{◌≡◌, ℕ, ◌⊎◌, List, None};

use crate::first_else::FirstElse;
use crate::system::LineSystem;

// A system that yields to another finds no run-in in a line that the other carries.
pub trait Yields<B: LineSystem>: LineSystem {
    fn yields(&self, to: &B)
        ensures apart { (line p : List ℕ) → B.LineSystem.carries to.now line p → Self.LineSystem.found self.now line ≡ None };
}

// In the first place: first, else second, yields to what both of its systems yield to.
impl<A: Yields<B> + Yields<C>, B: Yields<C>, C: LineSystem> Yields<C> for FirstElse<A, B> {
    fn yields(&self, to: &C) {
        self.first.yields(to);
        self.second.yields(to);
    }
}

// In the second place: what yields to two systems yields to first, else second, which carries what either carries.
pub fn yields_to_both<A: Yields<B> + Yields<C>, B: Yields<C>, C: LineSystem>(
    a: &A,
    to: &FirstElse<B, C>,
)
    ensures apart { (line p : List ℕ) → B.LineSystem.carries to.now.first line p ⊎ C.LineSystem.carries to.now.second line p → A.LineSystem.found a.now line ≡ None }
{
    a.yields(&to.first);
    a.yields(&to.second);
}

// Making first, else second, of two systems.
ghost use Rattle.std.specs.Prelude.{◌≡◌, ℕ, List, None, Ok, Err, ◌≢◌};
ghost use Rattle.refusal.specs.declared.Refusal.TheVariants.{Depth};

use crate::first_else::FirstElse;
use crate::system::LineSystem;
use crate::yields::Yields;
use refusal::Refusal;

impl<A: Yields<B>, B: LineSystem> FirstElse<A, B> {
    // First, else second, of two systems, which are given back where their depths differ.
    pub fn of(first: A, second: B) -> Result<FirstElse<A, B>, (A, B)>
        ensures answer { elim result [ Ok s ↦ (s.first ≡ first) × (s.second ≡ second) | Err back ↦ (back ≡ (first, second)) × (A.LineSystem.depth first ≢ B.LineSystem.depth second) ] }
    {
        first.yields(&second);
        if first.depth() == second.depth() {
            Ok(FirstElse { first, second })
        } else {
            Err((first, second))
        }
    }
}

// A system that may be read before another, and what is done with the two where their depths differ. Every two systems that can
// be let go have it; one that can't be is taken apart by an impl of its own, over `FirstElse::of`.
pub trait Joins<B: LineSystem>: Yields<B> + Sized {
    // First, else second, of the two, refused where their depths differ.
    fn join(self, second: B) -> Result<FirstElse<Self, B>, Refusal>
        ensures answer { elim result [ Ok s ↦ (s.first ≡ self) × (s.second ≡ second) | Err e ↦ (e ≡ Depth) × (Self.LineSystem.depth self ≢ B.LineSystem.depth second) ] };
}

impl<A: Yields<B> + Drop, B: LineSystem + Drop> Joins<B> for A {
    fn join(self, second: B) -> Result<FirstElse<A, B>, Refusal> {
        match FirstElse::of(self, second) {
            Ok(both) => Ok(both),
            Err(_) => Err(Refusal::Depth),
        }
    }
}

// First, else second, of two systems of one depth; the first finds no run-in in a line that the second carries.
pub fn first_else<A: Joins<B>, B: LineSystem>(
    first: A,
    second: B,
) -> Result<FirstElse<A, B>, Refusal>
    ensures answer { elim result [ Ok s ↦ (s.first ≡ first) × (s.second ≡ second) | Err e ↦ (e ≡ Depth) × (A.LineSystem.depth first ≢ B.LineSystem.depth second) ] }
    ensures apart { elim result [ Ok s ↦ ((line p : List ℕ) → B.LineSystem.carries second line p → A.LineSystem.found first line ≡ None) | Err e ↦ Unit {0} ] }
{
    first.join(second)
}

// Two line systems as one: the first, else the second.
ghost use Rattle.std.specs.Prelude.{◌≡◌, ℕ, ◌||◌, ◌⊎◌, List, length, if◌then◌else◌, None};
ghost use Rattle.std.proofs.Common.{inl, inr, rules};
ghost use Rattle.system.specs.Either.{found_else};
ghost use Rattle.std.proofs.lemmas.Bool.{or_left, or_right};
ghost use Rattle.system.specs.Otherwise.{drawn_by, or_second, found_first, found_second, found_by};

use crate::system::LineSystem;
use crate::yields::Yields;
use line::depth::Depth;
use refusal::Refusal;
use std::alloc::AllocError;

// The system that draws by the first of two systems where that draws the length, else by the second, and reads by the first
// where that finds a run-in, else by the second. The two have one depth, and the first finds no run-in in a line that the
// second carries.
pub struct FirstElse<A: Yields<B>, B: LineSystem> {
    pub(crate) first: A,
    pub(crate) second: B,
    ghost depths: { A.LineSystem.depth first ≡ B.LineSystem.depth second },
    ghost apart: { (line p : List ℕ) → B.LineSystem.carries second line p → A.LineSystem.found first line ≡ None },
}

impl<A: Yields<B>, B: LineSystem> FirstElse<A, B> {
    // The system that comes first,
    pub fn first(&self) -> &A
        ensures answer { result.now ≡ self.now.first }
    {
        &self.first
    }

    // and the other.
    pub fn second(&self) -> &B
        ensures answer { result.now ≡ self.now.second }
    {
        &self.second
    }
}

// By hand, since no derive takes a ghost field beside type parameters. Of a system's clone nothing is known but what its own type
// says, so the two clones are made a pair as any two systems are, and where their depths differ there is none. A pair of the same
// systems is the same pair.
impl<A: Yields<B> + Clone, B: LineSystem + Clone> Clone for FirstElse<A, B> {
    ghost is_clone = { λ x y. A.Clone.is_clone x.first y.first × B.Clone.is_clone x.second y.second × (y.first ≡ x.first → y.second ≡ x.second → y ≡ x) };

    ghost is_infallible = { λ x. A.Clone.is_infallible x.first × B.Clone.is_infallible x.second × ((a : A) (b : B) → A.Clone.is_clone x.first a → B.Clone.is_clone x.second b → A.LineSystem.depth a ≡ B.LineSystem.depth b) };

    fn clone(&self) -> Result<FirstElse<A, B>, AllocError> {
        let first = self.first.clone()?;
        let second = self.second.clone()?;
        match FirstElse::of(first, second) {
            Ok(pair) => Ok(pair),
            Err(_) => Err(AllocError),
        }
    }
}

impl<A: Yields<B> + Copy, B: LineSystem + Copy> Copy for FirstElse<A, B> {}

impl<A: Yields<B> + Copy, B: LineSystem + Copy> FirstElse<A, B> {
    // The same pair once more, and never without memory: the systems are copied, and not asked for clones, which may say less.
    pub fn copied(&self) -> FirstElse<A, B>
        ensures answer { result ≡ self.now }
    {
        *self
    }
}

impl<A: Yields<B>, B: LineSystem> LineSystem for FirstElse<A, B> {
    ghost depth = { λ s. A.LineSystem.depth s.first };

    ghost draws = { λ s n. A.LineSystem.draws s.first n || B.LineSystem.draws s.second n };

    ghost carries = { λ s line p. A.LineSystem.carries s.first line p ⊎ B.LineSystem.carries s.second line p };

    ghost tolerates = { λ s line p. A.LineSystem.tolerates s.first line p ⊎ B.LineSystem.tolerates s.second line p };

    ghost drawn = { λ s p count. (if A.LineSystem.draws s.first (length p) then A.LineSystem.drawn s.first p count else B.LineSystem.drawn s.second p count) };

    ghost found = { λ s line. found_else (A.LineSystem.found s.first line) (B.LineSystem.found s.second line) };

    ghost lengths = { Prim.search rules };

    ghost some = { λ s. let n = A.LineSystem.some s.first in (n.0, or_left _ _ n.1) };

    ghost legal = { Prim.search rules };

    ghost drawing = { λ s p count d ok.
        let a = s.first in
        let b = s.second in
        drawn_by (A.LineSystem.draws a (length p)) (λ l. A.LineSystem.carries a l p) (λ l. B.LineSystem.carries b l p) _ _
        (λ t. A.LineSystem.drawing _ p count (record { size = t; front = d.front; bytes = d.bytes }) ok)
        (λ f. B.LineSystem.drawing _ p count (record { size = or_second _ _ d.size f; front = d.front; bytes = d.bytes }) ok) };

    ghost tolerance = { λ s line p t. elim t [ inl a ↦ inl (A.LineSystem.tolerance _ line p a) | inr b ↦ inr (B.LineSystem.tolerance _ line p b) ] };

    ghost reading = { λ s line p c.
        elim c [
          | inl a ↦ found_first _ _ p (A.LineSystem.reading _ line p a)
          | inr b ↦ found_second _ _ p (s.apart line p b) (B.LineSystem.reading _ line p b)
        ] };

    ghost answers = { λ s line p f.
        elim (found_by _ _ p f) [
          | inl a ↦ let d = A.LineSystem.answers _ line p a in record { size = or_left _ _ d.size; front = d.front; bytes = d.bytes }
          | inr b ↦ let d = B.LineSystem.answers _ line p b in record { size = or_right _ _ d.size; front = d.front; bytes = d.bytes }
        ] };

    fn depth(&self) -> Depth {
        self.first.depth()
    }

    fn draws(&self, len: usize) -> bool {
        self.first.draws(len) || self.second.draws(len)
    }

    fn draw(&self, payload: &[u8], line: &mut [u16]) -> Result<(), Refusal> {
        if self.first.draws(payload.len()) {
            self.first.draw(payload, line)
        } else {
            self.second.draw(payload, line)
        }
    }

    fn read(&self, line: &[u16], payload: &mut [u8]) -> Result<Option<usize>, Refusal> {
        match self.first.read(line, payload)? {
            Some(length) => Ok(Some(length)),
            None => self.second.read(line, payload),
        }
    }
}

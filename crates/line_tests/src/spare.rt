// A system of which a clone is another, and a copy is the same.
ghost use Rattle.std.specs.Prelude.{◌≡◌, ⊤};

use line::depth::Depth;
use onex::one_x::OneX;
use refusal::Refusal;
use std::alloc::AllocError;
use std::marker::PhantomData;
use system::system::LineSystem;
use system::yields::Yields;
use twox::two_x::TwoX;

// The mark of a system that is Clone and not Copy.
pub struct Single;

// A system beside another, which its clone goes over to: so a clone may have another depth. It is Copy where its mark is.
#[derive(Drop)]
pub struct Spare<S, M = Single> {
    pub(crate) now: S,
    pub(crate) next: S,
    pub(crate) mark: PhantomData<M>,
}

impl<S: Copy, M> Clone for Spare<S, M> {
    ghost is_clone = { λ x y. (y.now ≡ x.next) × (y.next ≡ x.next) };

    ghost is_infallible = { λ _. ⊤ };

    fn clone(&self) -> Result<Spare<S, M>, AllocError> {
        Ok(Spare {
            now: self.next,
            next: self.next,
            mark: PhantomData,
        })
    }
}

impl<S: Copy, M: Copy> Copy for Spare<S, M> {}

impl<S: LineSystem, M> LineSystem for Spare<S, M> {
    ghost depth = { λ s. S.LineSystem.depth s.now };

    ghost draws = { λ s. S.LineSystem.draws s.now };

    ghost carries = { λ s. S.LineSystem.carries s.now };

    ghost tolerates = { λ s. S.LineSystem.tolerates s.now };

    ghost drawn = { λ s. S.LineSystem.drawn s.now };

    ghost found = { λ s. S.LineSystem.found s.now };

    ghost lengths = { λ s. S.LineSystem.lengths s.now };

    ghost some = { λ s. S.LineSystem.some s.now };

    ghost legal = { λ s. S.LineSystem.legal s.now };

    ghost drawing = { λ s. S.LineSystem.drawing s.now };

    ghost tolerance = { λ s. S.LineSystem.tolerance s.now };

    ghost reading = { λ s. S.LineSystem.reading s.now };

    ghost answers = { λ s. S.LineSystem.answers s.now };

    fn depth(&self) -> Depth {
        self.now.depth()
    }

    fn draws(&self, len: usize) -> bool {
        self.now.draws(len)
    }

    fn draw(&self, payload: &[u8], line: &mut [u16]) -> Result<(), Refusal> {
        self.now.draw(payload, line)
    }

    fn read(&self, line: &[u16], payload: &mut [u8]) -> Result<Option<usize>, Refusal> {
        self.now.read(line, payload)
    }
}

impl<M> Yields<Spare<TwoX, M>> for Spare<OneX, M> {
    fn yields(&self, to: &Spare<TwoX, M>) {
        self.now.yields(&to.now);
    }
}

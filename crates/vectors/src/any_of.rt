// One of three line systems, as a line system. An enum, and so a match in each method: which one it is the case says as it is
// read, and a boxed dyn could not be handed out.
ghost use Rattle.vectors.specs.declared.any_of.AnyOf.TheVariants.{One, Two, Both};

use line::depth::Depth;
use refusal::Refusal;
use system::system::LineSystem;

#[derive(Clone, Copy)]
pub enum AnyOf<A, B, C> {
    One(A),
    Two(B),
    Both(C),
}

impl<A: LineSystem, B: LineSystem, C: LineSystem> LineSystem for AnyOf<A, B, C> {
    ghost depth = { λ s. elim s [ One a ↦ A.LineSystem.depth a | Two b ↦ B.LineSystem.depth b | Both c ↦ C.LineSystem.depth c ] };

    ghost draws = { λ s. elim s [ One a ↦ A.LineSystem.draws a | Two b ↦ B.LineSystem.draws b | Both c ↦ C.LineSystem.draws c ] };

    ghost carries = { λ s. elim s [ One a ↦ A.LineSystem.carries a | Two b ↦ B.LineSystem.carries b | Both c ↦ C.LineSystem.carries c ] };

    ghost tolerates = { λ s. elim s [ One a ↦ A.LineSystem.tolerates a | Two b ↦ B.LineSystem.tolerates b | Both c ↦ C.LineSystem.tolerates c ] };

    ghost drawn = { λ s. elim s [ One a ↦ A.LineSystem.drawn a | Two b ↦ B.LineSystem.drawn b | Both c ↦ C.LineSystem.drawn c ] };

    ghost found = { λ s. elim s [ One a ↦ A.LineSystem.found a | Two b ↦ B.LineSystem.found b | Both c ↦ C.LineSystem.found c ] };

    ghost lengths = { elim [ One a ↦ A.LineSystem.lengths a | Two b ↦ B.LineSystem.lengths b | Both c ↦ C.LineSystem.lengths c ] };

    ghost some = { elim [ One a ↦ A.LineSystem.some a | Two b ↦ B.LineSystem.some b | Both c ↦ C.LineSystem.some c ] };

    ghost legal = { elim [ One a ↦ A.LineSystem.legal a | Two b ↦ B.LineSystem.legal b | Both c ↦ C.LineSystem.legal c ] };

    ghost drawing = { elim [ One a ↦ A.LineSystem.drawing a | Two b ↦ B.LineSystem.drawing b | Both c ↦ C.LineSystem.drawing c ] };

    ghost tolerance = { elim [ One a ↦ A.LineSystem.tolerance a | Two b ↦ B.LineSystem.tolerance b | Both c ↦ C.LineSystem.tolerance c ] };

    ghost reading = { elim [ One a ↦ A.LineSystem.reading a | Two b ↦ B.LineSystem.reading b | Both c ↦ C.LineSystem.reading c ] };

    ghost answers = { elim [ One a ↦ A.LineSystem.answers a | Two b ↦ B.LineSystem.answers b | Both c ↦ C.LineSystem.answers c ] };

    fn depth(&self) -> Depth {
        match self {
            AnyOf::One(system) => system.depth(),
            AnyOf::Two(system) => system.depth(),
            AnyOf::Both(system) => system.depth(),
        }
    }

    fn draws(&self, len: usize) -> bool {
        match self {
            AnyOf::One(system) => system.draws(len),
            AnyOf::Two(system) => system.draws(len),
            AnyOf::Both(system) => system.draws(len),
        }
    }

    fn draw(&self, payload: &[u8], line: &mut [u16]) -> Result<(), Refusal> {
        match self {
            AnyOf::One(system) => system.draw(payload, line),
            AnyOf::Two(system) => system.draw(payload, line),
            AnyOf::Both(system) => system.draw(payload, line),
        }
    }

    fn read(&self, line: &[u16], payload: &mut [u8]) -> Result<Option<usize>, Refusal> {
        match self {
            AnyOf::One(system) => system.read(line, payload),
            AnyOf::Two(system) => system.read(line, payload),
            AnyOf::Both(system) => system.read(line, payload),
        }
    }
}

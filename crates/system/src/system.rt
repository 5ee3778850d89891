// The trait of line systems.
ghost use Rattle.std.specs.Prelude.{◌≡◌, ℕ, ◌≤◌, Bool, true, List, length, Some, None, Option};
ghost use Rattle.line.specs.declared.depth.Depth.{Depth};
ghost use Rattle.line.specs.Lines.{Drawable, good_count, line_fault, draw_answer, draw_line, read_answer, read_buffer};

use line::depth::Depth;
use refusal::Refusal;

// A line system: a value that no call alters. It says how payloads are drawn as lines of one depth, and how they are read.
pub trait LineSystem {
    // the depth of the samples
    ghost depth: { Self → Depth };

    // which payload lengths are drawn
    ghost draws: { Self → ℕ → Bool };

    // which lines carry which payloads
    ghost carries: { Self → List ℕ → List ℕ → Type 0 };

    // which lines lie within the tolerance of a drawing of which payloads
    ghost tolerates: { Self → List ℕ → List ℕ → Type 0 };

    // the line drawn for a payload and a sample count
    ghost drawn: { Self → List ℕ → ℕ → List ℕ };

    // the one answer for a line: the payload, or none where no run-in is found
    ghost found: { Self → List ℕ → Option (List ℕ) };

    fn depth(&self) -> Depth
        ensures answer { result ≡ depth self.now };

    fn draws(&self, len: usize) -> bool
        ensures answer { result ≡ draws self.now len };

    // Fills a line with the drawing of a payload, or refuses and leaves it.
    fn draw(&self, payload: &[u8], line: &mut [u16]) -> Result<(), Refusal>
        ensures answer { result ≡ draw_answer (draws self.now) payload.now (length line.old) }
        ensures line { line.new ≡ draw_line result (drawn self.now payload.now (length line.old)) line.old };

    // Writes the payload found to the front of the buffer and answers its length, or none where no run-in is found.
    fn read(&self, line: &[u16], payload: &mut [u8]) -> Result<Option<usize>, Refusal>
        ensures answer { result ≡ read_answer (line_fault (depth self.now) line.now) (found self.now line.now) (length payload.old) }
        ensures payload { payload.new ≡ read_buffer result (found self.now line.now) payload.old };

    // every drawn length lies from 2 to 60
    ghost lengths: { (s : Self) (n : ℕ) → draws s n ≡ true → (2 ≤ n) × (n ≤ 60) };

    // some length is drawn
    ghost some: { (s : Self) → (n : ℕ) × (draws s n ≡ true) };

    // a line that carries a payload has a good count, and no sample of it is too large
    ghost legal: { (s : Self) (line p : List ℕ) → carries s line p → line_fault (depth s) line ≡ None };

    // a drawn line carries its payload
    ghost drawing: { (s : Self) (p : List ℕ) (count : ℕ) → Drawable (draws s) p → good_count count ≡ true → carries s (drawn s p count) p };

    // a line within the tolerance carries its payload
    ghost tolerance: { (s : Self) (line p : List ℕ) → tolerates s line p → carries s line p };

    // a line that carries a payload is read as that payload
    ghost reading: { (s : Self) (line p : List ℕ) → carries s line p → found s line ≡ Some p };

    // what is found has a drawn length, begins EB 52 and consists of bytes
    ghost answers: { (s : Self) (line p : List ℕ) → found s line ≡ Some p → Drawable (draws s) p };
}

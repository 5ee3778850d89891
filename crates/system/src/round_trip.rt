// Drawing a payload and reading it back, over any line system.
ghost use Rattle.std.specs.Prelude.{◌≡◌, length};
ghost use Rattle.line.specs.Lines.{draw_answer, draw_line};
ghost use Rattle.system.specs.Trips.{back_answer, back_buffer};

use crate::system::LineSystem;
use refusal::Refusal;

// Draws the payload into the line and reads the line into the buffer: the payload comes back, unless the drawing refuses.
pub fn round_trip<L: LineSystem>(
    system: &L,
    payload: &[u8],
    line: &mut [u16],
    back: &mut [u8; 60],
) -> Result<Option<usize>, Refusal>
    ensures answer { result ≡ back_answer (draw_answer (L.LineSystem.draws system.now) payload.now (length line.old)) payload.now }
    ensures line { line.new ≡ draw_line (draw_answer (L.LineSystem.draws system.now) payload.now (length line.old)) (L.LineSystem.drawn system.now payload.now (length line.old)) line.old }
    ensures back { back.new ≡ back_buffer result payload.now back.old }
{
    system.draw(payload, line)?;
    system.read(line, back)
}

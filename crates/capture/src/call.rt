// The call of a capture program.
ghost use Rattle.std.specs.Prelude.{◌≡◌, ℕ, ◌≤◌, List, length, Some, Ok};
ghost use Rattle.line.specs.Depths.{depth_of};
ghost use Rattle.line.specs.Lines.{put};
ghost use Rattle.capture.specs.Readings.{bytes_answer, buffer_after, Carry};
ghost use Rattle.capture.specs.Numbers.{in_numbers};

use crate::answer::LineReading;
use crate::reading::read;

// Reads one line by 1X, else 2X, off samples of two bytes each, low byte first.
pub fn rueladle_read_line(depth: u32, samples: &[u8], payload: &mut [u8]) -> LineReading
    ensures answer { result ≡ in_numbers (bytes_answer (depth_of depth) samples.now (length payload.old)) }
    ensures payload { payload.new ≡ buffer_after (depth_of depth) samples.now payload.old }
    ensures carried { (p : List ℕ) → Carry depth samples.now p → 60 ≤ length payload.old → (result ≡ in_numbers (Ok (Some (length p)))) × (payload.new ≡ put (Some p) payload.old) }
{
    LineReading::from(read(depth, samples, payload))
}

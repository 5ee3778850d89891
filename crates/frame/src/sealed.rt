// Drawing.
ghost use Rattle.std.specs.Prelude.{◌≡◌, length, Ok};
ghost use Rattle.line.specs.Lines.{draw_answer, draw_line};
ghost use Rattle.frame.specs.Frames.{SealedOver};

use super::frame::SealedFrame;
use refusal::Refusal;
use system::system::LineSystem;

impl SealedFrame {
    // The payload that is drawn.
    pub fn payload(&self) -> &[u8]
        ensures payload { result.now ≡ self.now }
        ensures sealed { SealedOver result.now }
    {
        &self.bytes[..self.size]
    }

    // Fills one line with the system's drawing of the payload, or refuses as the system does and leaves it.
    pub fn draw<L: LineSystem>(&self, system: &L, line: &mut [u16]) -> Result<(), Refusal>
        ensures answer { result ≡ draw_answer (L.LineSystem.draws system.now) self.now (length line.old) }
        ensures line { line.new ≡ draw_line result (L.LineSystem.drawn system.now self.now (length line.old)) line.old }
        ensures carried { result ≡ Ok tt → L.LineSystem.carries system.now line.new self.now }
        ensures sealed { SealedOver self.now }
    {
        system.draw(self.payload(), line)
    }
}

// The call that is measured.
ghost use Rattle.std.specs.Prelude.{◌≡◌};
ghost use Rattle.line.specs.Depths.{depth_of};
ghost use Rattle.reader.specs.Answers as answers;
ghost use Rattle.runs.specs.Reaching.{new};
ghost use Rattle.rounds.specs.Rounds.{after, measured, rounds_at};
ghost use Rattle.rounds.specs.Numbers.{in_numbers};

use crate::answer::OfferReading;
use crate::run::offer_all;
use crate::systems::new_reader;
use line::depth::Depth;
use reader::Answer;
use refusal::Refusal;

// Line, rounds and tray travel side by side, since they come so from C.
// Offers a line so many times to a new reader of a depth.
fn offer_to_new(depth: Depth, line: &[u16], rounds: u32, tray: &mut [u8]) -> Result<Answer, Refusal>
    ensures answer { answers.told result ≡ (after (measured depth) new line.now tray.old rounds).last }
    ensures tray { tray.new ≡ (after (measured depth) new line.now tray.old rounds).tray }
{
    let mut reader = new_reader(depth)?;
    offer_all(&mut reader, line, rounds, tray)
}

// The same at a stated depth, which is tested before all else.
fn offer_at(bits: u32, line: &[u16], rounds: u32, tray: &mut [u8]) -> Result<Answer, Refusal>
    ensures answer { answers.told result ≡ (rounds_at (depth_of bits) line.now tray.old rounds).last }
    ensures tray { tray.new ≡ (rounds_at (depth_of bits) line.now tray.old rounds).tray }
{
    let depth = Depth::try_from(bits)?;
    offer_to_new(depth, line, rounds, tray)
}

// For measuring: makes a reader of 1X, else 2X, that watches the numbers 1, 2 and 3, and offers it the line so many times, at
// the frames 0, 1, 2 and so on, with one tray. Tells what the last offer came to, all zeros where none was made.
#[unsafe(no_mangle)]
pub extern "C" fn rueladle_offer_rounds(
    depth: u32,
    line: &[u16],
    rounds: u32,
    tray: &mut [u8],
) -> OfferReading
    ensures answer { result ≡ in_numbers (rounds_at (depth_of depth) line.now tray.old rounds).last }
    ensures tray { tray.new ≡ (rounds_at (depth_of depth) line.now tray.old rounds).tray }
{
    OfferReading::from(offer_at(depth, line, rounds, tray))
}

// Offering one line over and over.
ghost use Rattle.std.specs.Prelude.{◌≡◌};
ghost use Rattle.reader.specs.Answers.{told};
ghost use Rattle.reader.specs.Calls.{setting, state};
ghost use Rattle.rounds.specs.Rounds.{after};

use reader::{Answer, Reader};
use refusal::Refusal;
use system::system::LineSystem;

// Offers a line so many times, at the frames 0, 1, 2 and so on, with one tray. Answers as the last offer does.
pub(crate) fn offer_all<L: LineSystem>(
    reader: &mut Reader<L>,
    line: &[u16],
    rounds: u32,
    tray: &mut [u8],
) -> Result<Answer, Refusal>
    ensures answer { told result ≡ (after (setting L.LineSystem reader.old) (state reader.old) line.now tray.old rounds).last }
    ensures tray { tray.new ≡ (after (setting L.LineSystem reader.old) (state reader.old) line.now tray.old rounds).tray }
{
    let mut last = Ok(Answer {
        length: 0,
        used: 0,
        skipped: 0,
    });
    // the number of the round is the frame's, and no index
    for round in 0..rounds {
        last = reader.offer(round as u64, line, tray);
    }
    last
}

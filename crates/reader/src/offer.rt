// Offering a line.
ghost use Rattle.std.specs.Prelude.{◌≡◌, ℕ, List, Err};
ghost use Rattle.gather.specs.Model.{watching};
ghost use Rattle.runs.specs.Pasts.{offer as Offered};
ghost use Rattle.reader.specs.Answers.{call_due, due_told, told, outcome_of};
ghost use Rattle.reader.specs.Calls.{setting, state, KeepsThePromise, offered_line, offered_answer, offered_tray, offered_state, WritesTray};

use super::reader::{Answer, Reader};
use refusal::Refusal;
use system::system::LineSystem;
use tray::TRAY_LEAST;

// Why an offer of a good line is refused, if it is: by its frame number, then by its tray.
fn call_test(floor: u64, frame: u64, room: usize) -> Result<(), Refusal>
    ensures answer { result ≡ due_told (call_due floor frame room) }
{
    if frame < floor {
        return Err(Refusal::FrameNumber);
    }
    if room < TRAY_LEAST {
        return Err(Refusal::OutputLength(room));
    }
    Ok(())
}

impl<L: LineSystem> Reader<L> {
    // Takes a line: its blocks are gathered, whole messages and faults stand in the tray. Refused are a line that is none of
    // its system, a frame number below the last taken, a tray under 1,630 bytes; then nothing changes.
    pub fn offer(&mut self, frame: u64, line: &[u16], tray: &mut [u8]) -> Result<Answer, Refusal>
        ensures answer { told result ≡ offered_answer (setting L.LineSystem self.old) (state self.old) frame line.now tray.old }
        ensures tray { tray.new ≡ offered_tray (setting L.LineSystem self.old) (state self.old) frame line.now tray.old }
        ensures writes_a_tray { WritesTray result tray.new (offered_line (setting L.LineSystem self.old) (state self.old) frame line.now tray.old) }
        ensures next { state self.new ≡ offered_state (setting L.LineSystem self.old) (state self.old) frame line.now tray.old }
        ensures same { (self.new.system ≡ self.old.system) × (watching self.new.memory.table ≡ watching self.old.memory.table) }
        ensures unchanged { (e : Refusal) → result ≡ Err e → self.new ≡ self.old }
        ensures keeps_the_promise { KeepsThePromise L.LineSystem self.old (Offered frame line.now tray.old) (outcome_of result tray.new) (state self.new) }
    {
        // in fixed memory: nothing here allocates
        let mut payload = [0u8; 60];
        let found = self.system.read(line, &mut payload)?;
        call_test(self.memory.floor, frame, tray.len())?;
        self.memory.floor = frame;
        Ok(self.memory.take_line(found, &payload, tray))
    }
}

// Taking a line: what was found in it is followed, and the tray is finished.
ghost use Rattle.std.specs.Prelude.{◌≡◌, ℕ, ◌≤◌, List, length as long, IfSome, Option};
ghost use Rattle.gather.specs.Arriving.{Table as Gathered};
ghost use Rattle.gather.specs.Model.{watching, gathered};
ghost use Rattle.reader.specs.Following.{Progress as Followed, followed};
ghost use Rattle.reader.specs.Offers.{found_length};
ghost use Rattle.reader.specs.Stands.{LineStands};
ghost use Rattle.reader.specs.Answers.{seen, Taken};

use super::progress::Progress;
use super::reader::{Answer, Memory};
use tray::finish;

impl Progress {
    // Finishes the tray of a line that was followed, and answers for it.
    fn close(self, found: usize, tray: &mut [u8]) -> Answer
        ensures { (seen : Option (List ℕ)) (old : List ℕ) (T : Gathered) (p : Followed) → LineStands old tray.old self T p → 1630 ≤ long old → found ≡ found_length seen → Taken seen old tray.new result T p }
    {
        Answer {
            length: found,
            used: finish(tray, self.messages, self.at, &self.faults).unwrap_or(0),
            skipped: self.skipped,
        }
    }
}

impl Memory {
    // Takes a line in which so many bytes of the payload buffer were found, or no run-in.
    // Length and buffer stay two arguments: they are what a line system's `read` answers and leaves.
    pub(crate) fn take_line(
        &mut self,
        found: Option<usize>,
        payload: &[u8; 60],
        tray: &mut [u8],
    ) -> Answer
        requires within { IfSome found (λ n. n ≤ 60) }
        requires room { 1630 ≤ long tray.old }
        ensures taken { Taken (seen found payload.now) tray.old tray.new result (gathered self.new.table) (followed (watching self.old.table) self.old.floor (seen found payload.now) (gathered self.old.table)) }
        ensures same { (watching self.new.table ≡ watching self.old.table) × (self.new.floor ≡ self.old.floor) }
    {
        match found {
            Some(n) => {
                let progress = self.follow_line(&payload[..n], tray);
                progress.close(n, tray)
            }
            None => Progress::new().close(0, tray),
        }
    }
}

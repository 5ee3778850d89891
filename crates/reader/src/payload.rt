// Following all entries of a line.
ghost use Rattle.std.specs.Prelude.{◌≡◌, ◌≤◌, length, Some};
ghost use Rattle.gather.specs.Model.{watching, gathered};
ghost use Rattle.reader.specs.Following.{followed};
ghost use Rattle.reader.specs.Stands.{LineStands};

use super::progress::Progress;
use super::reader::Memory;
use walk::Walk;

impl Memory {
    // Follows the entries of a payload: blocks reach the table, messages stand in the tray from place 1 on.
    pub(crate) fn follow_line(&mut self, payload: &[u8], tray: &mut [u8]) -> Progress
        requires short { length payload.now ≤ 60 }
        requires room { 1630 ≤ length tray.old }
        ensures stands { LineStands tray.old tray.new result (gathered self.new.table) (followed (watching self.old.table) self.old.floor (Some payload.now) (gathered self.old.table)) }
        ensures same { (watching self.new.table ≡ watching self.old.table) × (self.new.floor ≡ self.old.floor) }
    {
        let mut progress = Progress::new();
        for entry in Walk::new(payload) {
            self.follow_entry(&entry, tray, &mut progress);
        }
        progress
    }
}

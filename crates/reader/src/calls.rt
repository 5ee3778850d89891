// Making a reader, restarting it, and asking what it holds.
ghost use Rattle.std.specs.Prelude.{◌≡◌, [], IfOk};
ghost use Rattle.gather.specs.Model.{watching};
ghost use Rattle.gather.specs.Serving.{held_for};
ghost use Rattle.gather.specs.Watching.{watch_fault};
ghost use Rattle.runs.specs.Pasts.{restart as Restart, restarts};
ghost use Rattle.runs.specs.Reaching.{new as Fresh, Reached};
ghost use Rattle.reader.specs.Calls.{setting, state, KeepsThePromise, made_of, making, Watches};

use super::reader::{Memory, Reader};
use gather::Table;
use refusal::Refusal;
use system::system::LineSystem;

impl<L: LineSystem + Drop> Reader<L> {
    // A reader of lines of the system that watches one to eight numbers and has gathered nothing. Refused is an empty list,
    // the first number that is 0 or stands earlier, and a ninth number.
    pub fn new(system: L, watch: &[u8]) -> Result<Reader<L>, Refusal>
        ensures answer { made_of result ≡ making system watch.now (watch_fault watch.now) }
        ensures list_can_be_watched { Watches watch.now result }
        ensures has_no_past { IfOk result (λ reader. Reached (setting L.LineSystem reader) [] (state reader)) }
    {
        let table = Table::new(watch)?;
        Ok(Reader {
            system,
            memory: Memory { table, floor: 0 },
        })
    }
}

impl<L: LineSystem> Reader<L> {
    // Drops all parts and forgets the frame number: the next offer may have any.
    pub fn restart(&mut self)
        ensures next { state self.new ≡ Fresh }
        ensures same { (self.new.system ≡ self.old.system) × (watching self.new.memory.table ≡ watching self.old.memory.table) }
        ensures keeps_the_promise { KeepsThePromise L.LineSystem self.old Restart restarts (state self.new) }
    {
        self.memory.table.clear();
        self.memory.floor = 0;
    }

    // How many parts are held for a number, or none where it isn't watched.
    pub fn held(&self, number: u8) -> Option<usize>
        ensures answer { result ≡ held_for (watching self.now.memory.table) (state self.now).gathered number }
    {
        self.memory.table.held(number)
    }
}

// Making a table for a watch list, and clearing it.
ghost use Rattle.std.specs.Prelude.{◌≡◌, ℕ, ◌<◌, ◌≤◌, length};
ghost use Rattle.gather.specs.Gathering.{nothing};
ghost use Rattle.gather.specs.Watching.{wrong_at, watch_fault};
ghost use Rattle.gather.specs.Model.{model, watching, gathered};
ghost use Rattle.gather.specs.Serving.{empty, shown, opened, Taken};

use super::slot::{Slot, State};
use super::table::Table;
use refusal::Refusal;
use sending::{PART_MOST, PARTS_MOST};

// The most numbers that are watched.
const WATCH_MOST: usize = 8;

// Whether an index holds 0 or a number that stands earlier.
fn is_wrong(watch: &[u8], at: usize) -> bool
    requires { at < length watch.now }
    ensures { result ≡ wrong_at watch.now at }
{
    watch[at] == 0 || watch[..at].contains(&watch[at])
}

// The place at which a watch list is refused.
fn fault_of(watch: &[u8]) -> Option<usize>
    ensures { result ≡ watch_fault watch.now }
{
    if watch.is_empty() {
        return Some(0);
    }
    let wrong = (0..watch.len()).find(|at| is_wrong(watch, *at));
    wrong.or((watch.len() > WATCH_MOST).then_some(WATCH_MOST))
}

impl Slot {
    // A slot that holds nothing.
    fn new(number: u8) -> Slot
        ensures number { result.number ≡ number }
        ensures next { model result ≡ nothing }
    {
        Slot {
            number,
            state: State::Empty,
            bytes: [[0; PART_MOST]; PARTS_MOST],
        }
    }

    // Drops every part.
    fn clear(&mut self)
        ensures next { model self.new ≡ nothing }
        ensures same { self.new.number ≡ self.old.number }
    {
        self.state = State::Empty;
    }
}

impl Table {
    // A table that watches the numbers, of which there are at most eight, and holds nothing.
    fn of(watch: &[u8]) -> Table
        requires { length watch.now ≤ 8 }
        ensures watch { watching result ≡ watch.now }
        ensures next { gathered result ≡ empty }
    {
        let mut slots = [Slot::new(0); 8];
        // by index: of a slice that is zipped with another, a proof learns nothing of what is written into it
        for (at, number) in watch.iter().enumerate() {
            slots[at] = Slot::new(*number);
        }
        Table {
            slots,
            used: watch.len(),
        }
    }

    // A table that watches the numbers and holds nothing. Refused is an empty list, the first number that is 0 or stands
    // earlier, and a ninth number.
    pub fn new(watch: &[u8]) -> Result<Table, Refusal>
        ensures answer { shown result ≡ opened watch.now (watch_fault watch.now) }
        ensures list_can_be_watched { Taken watch.now result }
    {
        match fault_of(watch) {
            Some(place) => Err(Refusal::WatchList(place)),
            None => Ok(Table::of(watch)),
        }
    }

    // Drops every part of every number.
    pub fn clear(&mut self)
        ensures next { gathered self.new ≡ empty }
        ensures same { watching self.new ≡ watching self.old }
    {
        for slot in self.slots.iter_mut() {
            slot.clear();
        }
    }
}

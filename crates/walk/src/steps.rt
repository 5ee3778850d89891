// Going over a payload.
ghost use Rattle.std.specs.Prelude.{◌≡◌, ◌+◌, ◌≤◌, length};
ghost use Rattle.std.specs.List.{AllByRecursion};
ghost use Rattle.std.specs.Iterator.{at_most};
ghost use Rattle.walk.specs.Fields.{count_of, cause_at, cause_number};
ghost use Rattle.walk.specs.Entries.{taken, entries};
ghost use Rattle.walk.specs.Laws.{ReadsSentBlocks, InLine, Apart, Few, Right};
ghost use Rattle.walk.specs.Steps.{ahead, Steps, bytes_left, Found};

use super::entry::{Cause, Entry};
use super::parse::block_of;
use super::walk::Walk;
use sending::UNCOUNTED;

// Where the first block of a payload begins.
const FIRST: usize = 2;

// How many bytes a block takes, by its count.
fn size_by_count(rest: &[u8]) -> usize
    requires { 2 ≤ length rest.now }
    ensures { result ≡ count_of rest.now + 2 }
{
    UNCOUNTED + usize::from(rest[1])
}

// How many bytes a block that isn't read takes: all that are left where it finishes the line.
fn past_fault(cause: Cause, rest: &[u8]) -> usize
    requires { cause_number cause ≡ cause_at rest.now }
    ensures { result ≡ taken rest.now }
{
    if cause.ends_line() {
        rest.len()
    } else {
        size_by_count(rest)
    }
}

// The entry with which these bytes, at a place of their payload, begin, and how many bytes it takes.
fn entry_at<'a>(rest: &'a [u8], place: usize) -> Option<(Entry<'a>, usize)>
    ensures { Found place rest.now result }
{
    let &[number, ..] = rest else {
        return None;
    };
    if number == 0 {
        return None;
    }
    match block_of(rest) {
        Ok(block) => Some((Entry::Block { place, block }, size_by_count(rest))),
        Err(cause) => Some((
            Entry::Fault {
                place,
                cause,
                number,
            },
            past_fault(cause, rest),
        )),
    }
}

impl<'a> Walk<'a> {
    // A walk over a payload, from place 2 on. The first two bytes are not looked at.
    pub fn new(payload: &'a [u8]) -> Self
        ensures payload { result.payload.now ≡ payload.now }
        ensures entries { ahead result ≡ entries payload.now }
        ensures sent_blocks_are_read { ReadsSentBlocks payload.now (ahead result) }
        ensures entries_lie_in_line { InLine payload.now 2 (ahead result) }
        ensures entries_lie_apart { Apart payload.now (ahead result) }
        ensures entries_are_few { Few payload.now (ahead result) }
        ensures blocks_are_right { AllByRecursion (Right payload.now) (ahead result) }
    {
        let place = payload.len().min(FIRST);
        Walk { payload, place }
    }
}

impl<'a> Iterator for Walk<'a> {
    type Item = Entry<'a>;

    ghost next_gives = { Steps };

    ghost remaining = { λ s. at_most (bytes_left s) };

    fn next(&mut self) -> Option<Entry<'a>> {
        let payload = self.payload;
        let (entry, taken) = entry_at(&payload[self.place..], self.place)?;
        self.place += taken;
        Some(entry)
    }
}

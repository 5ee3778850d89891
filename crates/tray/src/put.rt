// Writing into a tray. What doesn't fit is not written, and the tray stays as it was.
ghost use Rattle.std.specs.Prelude.{◌≡◌, ◌+◌, ◌≤◌, length, nat_le};
ghost use Rattle.tray.specs.Said.{fault_said};
ghost use Rattle.tray.specs.Writing.{message_end, message_put, fault_end, fault_put, section_end, section_put, finish_end, finish_put, Adds, Finishes};

use super::fault::{Fault, Faults};
use super::limits::{HEAD, LENGTH_MOST};
use buffers::lay;

// Tray and place stay two arguments: a struct that holds a `&mut` owes a clause on whose it is at every function.
// Whether so many bytes fit at a place of the tray.
fn has_room(tray: &[u8], at: usize, size: usize) -> bool
    ensures { result ≡ nat_le (at + size) (length tray.now) }
{
    at <= tray.len() && size <= tray.len() - at
}

// Writes a message at a place, and answers where it ends.
pub fn put_message(
    tray: &mut [u8],
    at: usize,
    number: u8,
    version: u8,
    bytes: &[u8],
) -> Option<usize>
    ensures answer { result ≡ message_end (record { number = number; version = version; bytes = bytes.now }) at (length tray.old) }
    ensures tray { tray.new ≡ message_put (record { number = number; version = version; bytes = bytes.now }) at tray.old }
    ensures stands_behind { Adds tray.old at (record { number = number; version = version; bytes = bytes.now }) tray.new }
{
    let size = bytes.len();
    if size > LENGTH_MOST as usize || !has_room(tray, at, HEAD + size) {
        return None;
    }
    let own = lay(tray, at, &[number, version, size as u8])?;
    lay(tray, own, bytes)
}

// Writes a fault at a place, and answers where it ends.
pub fn put_fault(tray: &mut [u8], at: usize, fault: Fault) -> Option<usize>
    ensures answer { result ≡ fault_end (fault_said fault) at (length tray.old) }
    ensures tray { tray.new ≡ fault_put (fault_said fault) at tray.old }
{
    lay(tray, at, &fault.bytes())
}

// Writes the section of faults at a place: their count, then each. Answers where it ends.
pub fn put_faults(tray: &mut [u8], at: usize, faults: &Faults) -> Option<usize>
    ensures answer { result ≡ section_end faults.now at (length tray.old) }
    ensures tray { tray.new ≡ section_put faults.now at tray.old }
    ensures few { length faults.now ≤ 9 }
{
    if !has_room(tray, at, faults.section_size()) {
        return None;
    }
    let faults = faults.as_slice();
    let mut end = lay(tray, at, &[faults.len() as u8])?;
    for fault in faults {
        end = lay(tray, end, &fault.bytes())?;
    }
    Some(end)
}

// Finishes a tray in which messages stand from place 1 on: their count at the front, the faults behind them.
// Answers how many bytes are used.
pub fn finish(tray: &mut [u8], messages: u8, at: usize, faults: &Faults) -> Option<usize>
    ensures answer { result ≡ finish_end faults.now at (length tray.old) }
    ensures tray { tray.new ≡ finish_put messages faults.now at tray.old }
    ensures is_whole { Finishes tray.old messages at faults.now result tray.new }
    ensures few { length faults.now ≤ 9 }
{
    let size = faults.section_size();
    if at == 0 || !has_room(tray, at, size) {
        return None;
    }
    tray[0] = messages;
    put_faults(tray, at, faults)
}

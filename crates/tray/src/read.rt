// Reading what stands at a place of a tray.
ghost use Rattle.std.specs.Prelude.{◌≡◌, length, slice_index};
ghost use Rattle.refusal.specs.declared.Refusal.TheVariants.{Tray};
ghost use Rattle.buffers.specs.Places.{unless};
ghost use Rattle.tray.specs.Rows.{byte_fault};
ghost use Rattle.tray.specs.Reading.{message, fault, message_size, fault_size, message_fault, fault_fault, message_of, fault_of};

use super::cause::Cause;
use super::entry::Entry;
use super::limits::{HEAD, LAYERS, LENGTH_MOST, PLACE_LEAST, PLACE_MOST};
use super::row::Kind;
use refusal::Refusal;
use sending::VERSION_MOST;

// Tray and place stay two arguments: a refusal tells a place in the whole tray.
// The byte at a place, where it lies in a range. Refused there.
pub(crate) fn byte_at(tray: &[u8], place: usize, least: u8, most: u8) -> Result<u8, Refusal>
    ensures { result ≡ unless Tray (byte_fault least most place tray.now) (slice_index tray.now place) }
{
    match tray.get(place) {
        Some(byte) if (least..=most).contains(byte) => Ok(*byte),
        _ => Err(Refusal::Tray(place)),
    }
}

// Messages: number, version, length, bytes.
pub(crate) struct MessageKind;

impl Kind for MessageKind {
    ghost wrong = { message_fault };

    ghost size = { message_size };

    ghost entry = { λ place bs. message place (message_of bs) };

    fn read<'a>(tray: &'a [u8], place: usize) -> Result<Entry<'a>, Refusal> {
        let number = byte_at(tray, place, 1, 255)?;
        let version = byte_at(tray, place + 1, 0, VERSION_MOST)?;
        let size = byte_at(tray, place + 2, 0, LENGTH_MOST)? as usize;
        let from = place + HEAD;
        // a match, not ok_or and `?`: it is as short, and each case says what it answers
        match tray.get(from..from + size) {
            Some(bytes) => Ok(Entry::Message {
                place,
                number,
                version,
                bytes,
            }),
            None => Err(Refusal::Tray(tray.len())),
        }
    }
}

// Faults: layer, cause, number byte, the block's place in its payload.
pub(crate) struct FaultKind;

impl Kind for FaultKind {
    ghost wrong = { fault_fault };

    ghost size = { fault_size };

    ghost entry = { λ place bs. fault place (fault_of bs) };

    fn read<'a>(tray: &'a [u8], place: usize) -> Result<Entry<'a>, Refusal> {
        let layer = byte_at(tray, place, 1, LAYERS)?;
        let cause = byte_at(tray, place + 1, 1, 255)?;
        let cause = Cause::at(layer, cause).ok_or(Refusal::Tray(place + 1))?;
        let number = byte_at(tray, place + 2, 1, 255)?;
        let at = byte_at(tray, place + 3, PLACE_LEAST, PLACE_MOST)?;
        Ok(Entry::Fault {
            place,
            cause,
            number,
            at,
        })
    }
}

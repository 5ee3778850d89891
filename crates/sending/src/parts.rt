// Parts of a message in fixed memory.
ghost use Rattle.std.specs.Prelude.{◌≡◌, ℕ, ◌+◌, ◌<◌, ◌≤◌, [], ◌∷◌, ◌++◌, length, take, slice_get, slice_index};
ghost use Rattle.sending.specs.Given.{texts};
ghost use Rattle.sending.specs.Model.{part_shown};
ghost use Rattle.sending.specs.Storage.{joint, Plain};

use super::limits::{MESSAGE_MOST, PARTS_MOST};
use std::marker::Model;

// At most four parts of at most 200 bytes in all, one behind the other. Clauses see them as a list. In fixed memory: the library
// crates have no allocator, and no crate of the kit beneath them but std.
#[derive(Drop)]
pub(crate) struct Parts {
    // how many parts there are
    count: usize,
    // where each part ends
    places: [usize; PARTS_MOST],
    // the parts, and zeros
    bytes: [u8; MESSAGE_MOST],
}

impl Model for Parts {
    ghost use Rattle.std.specs.Prelude.{ℕ, List};

    ghost Value = { List (List ℕ) };

    ghost use Rattle.sending.specs.Stored.{stored, IsStored};

    ghost view = { stored };

    ghost invariant = { IsStored };
}

impl Parts {
    // No parts.
    pub(crate) fn new() -> Parts
        ensures { result ≡ [] }
    {
        Parts {
            count: 0,
            places: [0; PARTS_MOST],
            bytes: [0; MESSAGE_MOST],
        }
    }

    // The given parts.
    pub(crate) fn of(parts: &[&[u8]]) -> Parts
        requires few { length parts.now ≤ 4 }
        requires room { length (joint (texts parts.now)) ≤ 200 }
        ensures parts { result ≡ texts parts.now }
        ensures plain { Plain result }
    {
        let mut kept = Parts::new();
        for part in parts {
            kept.push(part);
        }
        kept
    }

    // One part more.
    pub(crate) fn push(&mut self, part: &[u8])
        requires few { length self.old < 4 }
        requires room { length (joint self.old) + length part.now ≤ 200 }
        ensures parts { self.new ≡ self.old ++ part.now ∷ [] }
        ensures plain { (i : ℕ) → i < length part.now → slice_index part.now i < 256 }
    {
        let from = self.end();
        let end = from + part.len();
        self.bytes[from..end].copy_from_slice(part);
        self.places[self.count] = end;
        self.count += 1;
    }

    // How many parts there are.
    pub(crate) fn count(&self) -> usize
        ensures { result ≡ length self.now }
    {
        self.count
    }

    // Where part i begins, or where the last part ends.
    fn start(&self, i: usize) -> usize
        requires { i ≤ length self.now }
        ensures { result ≡ length (joint (take i self.now)) }
    {
        if i == 0 { 0 } else { self.places[i - 1] }
    }

    // Where the last part ends.
    fn end(&self) -> usize
        ensures end { result ≡ length (joint self.now) }
        ensures room { result ≤ 200 }
    {
        self.start(self.count)
    }

    // All parts in one piece.
    pub(crate) fn joined(&self) -> &[u8]
        ensures { result.now ≡ joint self.now }
    {
        let end = self.end();
        &self.bytes[..end]
    }

    // The bytes of part i, if there is one.
    pub(crate) fn get(&self, i: usize) -> Option<&[u8]>
        ensures { part_shown result ≡ slice_get self.now i }
    {
        if i >= self.count {
            return None;
        }
        let from = self.start(i);
        let to = self.start(i + 1);
        Some(&self.bytes[from..to])
    }
}

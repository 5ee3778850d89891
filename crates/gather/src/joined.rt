// The bytes of a message as its parts are joined.
ghost use Rattle.std.specs.Prelude.{◌≡◌, ℕ, ◌+◌, ◌≤◌, List, [], ◌++◌, length, take};
ghost use Rattle.gather.specs.Keeping.{fronted};

use sending::MESSAGE_MOST;
use std::marker::Model;

// A message has at most 200 bytes; those behind the first `size` mean nothing.
// In fixed memory: the library crates have no allocator, and no crate of the kit beneath them but std.
#[derive(Drop)]
pub(crate) struct Joined {
    bytes: [u8; MESSAGE_MOST],
    size: usize,
}

impl Model for Joined {
    ghost Value = { List ℕ };

    ghost view = { λ j. take j.size j.bytes };

    ghost invariant = { λ j. j.size ≤ 200 };
}

impl Joined {
    // No bytes yet.
    pub(crate) fn new() -> Joined
        ensures { result ≡ [] }
    {
        Joined {
            bytes: [0; MESSAGE_MOST],
            size: 0,
        }
    }

    // Puts a part's bytes behind the others.
    pub(crate) fn push(&mut self, body: &[u8])
        requires { length self.old + length body.now ≤ 200 }
        ensures { self.new ≡ self.old ++ body.now }
    {
        let end = self.size + body.len();
        self.bytes[self.size..end].copy_from_slice(body);
        self.size = end;
    }

    // The bytes joined so far.
    pub(crate) fn bytes(&self) -> &[u8]
        ensures { result.now ≡ self.now }
    {
        &self.bytes[..self.size]
    }

    // Writes the bytes at the front of `out`, and answers how many they are.
    pub(crate) fn put(&self, out: &mut [u8; MESSAGE_MOST]) -> usize
        ensures answer { result ≡ length self.now }
        ensures out { out.new ≡ fronted self.now out.old }
    {
        out[..self.size].copy_from_slice(&self.bytes[..self.size]);
        self.size
    }
}

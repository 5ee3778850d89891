// A sending of given parts.
ghost use Rattle.std.specs.Prelude.{◌≡◌, ◌-◌, ◌<◌, length, IfOk};
ghost use Rattle.sending.specs.Sendings.{IsSending};
ghost use Rattle.sending.specs.Given.{part_limit, first_long, texts, unsuited, of_parts};

use super::limits::{LAST_MOST, PART_MOST, PARTS_MOST, VERSION_MOST};
use super::parts::Parts;
use super::sending::Sending;
use refusal::Refusal;

// How many bytes part k of n may have.
fn limit(n: usize, k: usize) -> usize
    ensures { result ≡ part_limit n k }
{
    if n >= 2 && k == n - 1 {
        LAST_MOST
    } else {
        PART_MOST
    }
}

// The length of the first part that is too long.
fn too_long(parts: &[&[u8]]) -> Option<usize>
    ensures { result ≡ first_long (length (texts parts.now)) 0 (texts parts.now) }
{
    let n = parts.len();
    for (i, part) in parts.iter().enumerate() {
        if part.len() > limit(n, i) {
            return Some(part.len());
        }
    }
    None
}

// Whether no sending has this number, this version or this many parts.
pub(crate) fn not_of_a_sending(number: u8, version: u8, count: usize) -> bool
    ensures { result ≡ unsuited number version count }
{
    number == 0 || version > VERSION_MOST || count == 0 || count > PARTS_MOST
}

// Number and version come side by side, as the public calls have them: the struct of both is the Sending that is made.
impl Sending {
    // A sending of given parts, refused where a part is too long, then where no sending has the number, version or count.
    pub fn of_parts(number: u8, version: u8, parts: &[&[u8]]) -> Result<Sending, Refusal>
        ensures answer { result ≡ of_parts (record { number = number; version = version; parts = texts parts.now }) }
        ensures rule { IfOk result IsSending }
    {
        // no `?`: only here does a length become a refusal
        if let Some(length) = too_long(parts) {
            return Err(Refusal::TooLong(length));
        }
        if not_of_a_sending(number, version, parts.len()) {
            return Err(Refusal::NotOfASending);
        }
        Ok(Sending {
            number,
            version,
            parts: Parts::of(parts),
        })
    }
}

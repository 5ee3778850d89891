// Reading the block with which some bytes begin.
ghost use Rattle.std.specs.Prelude.{◌≡◌, ◌+◌, ◌-◌, ◌<◌, ◌≤◌, Bool, true, cond, not, ◌&&◌, ◌==◌, length, take, drop, Some, None, MatchResult};
ghost use Rattle.sending.specs.Model.{means};
ghost use Rattle.walk.specs.Fields.{word, count_of, cause_at, cause_number, block_at, Sound};
ghost use Rattle.walk.specs.declared.entry.Cause.TheVariants.{Short};

use super::entry::Cause;
use crc::crc32;
use sending::{BEFORE_BODY, Block, PART_WEIGHT, UNCOUNTED, VERSION_WEIGHT};

// The least count of a block: the byte of version and parts, and CRC_32.
const COUNT_LEAST: usize = 5;

// What CRC_32 covers of the block: all before it. The block must be whole, and CRC_32 right.
#[tactic(auto, using(std::proofs::lemmas::Bool::Decides::nat_tests), unfolding(crate::specs::Fields::cause_at))]
fn covered(rest: &[u8]) -> Result<&[u8], Cause>
    ensures { MatchResult result (λ b. Sound rest.now × (b.now ≡ take (count_of rest.now - 2) rest.now)) (λ c. cause_number c ≡ cause_at rest.now) }
{
    let &[_, count, ..] = rest else {
        return Err(Cause::Torn);
    };
    let count = usize::from(count);
    if count < COUNT_LEAST || rest.len() < count + UNCOUNTED {
        return Err(Cause::Torn);
    }
    // seven bytes at least, so these are never too few
    let (covered, word) = rest[..count + UNCOUNTED]
        .split_last_chunk()
        .ok_or(Cause::Torn)?;
    if crc32(covered) != u32::from_be_bytes(*word) {
        return Err(Cause::Crc);
    }
    Ok(covered)
}

// Whether the part is the last of several: its block carries the message CRC.
// said at each place: one line, and no plainer as a function that crates share
fn last_of_several(part: u8, last: u8) -> bool
    ensures { result ≡ (part == last && not (last == 0)) }
{
    part == last && last != 0
}

// The body, and the message CRC behind it where the block carries one.
fn body_and_check(bytes: &[u8], carried: bool) -> Result<(&[u8], Option<u32>), Cause>
    ensures { MatchResult result
        (λ r. (r.0.now ≡ take (length bytes.now - cond carried 4 0) bytes.now) × (r.1 ≡ cond carried (Some (word (drop (length bytes.now - 4) bytes.now))) None) × (cond carried 4 0 ≤ length bytes.now))
        (λ c. (c ≡ Short) × (carried ≡ true) × (length bytes.now < 4)) }
{
    if !carried {
        return Ok((bytes, None));
    }
    let (body, word) = bytes.split_last_chunk().ok_or(Cause::Short)?;
    Ok((body, Some(u32::from_be_bytes(*word))))
}

// The block at the front of these bytes, or the first cause for which it isn't read.
pub(crate) fn block_of(rest: &[u8]) -> Result<Block<'_>, Cause>
    ensures { MatchResult result (λ b. (cause_at rest.now ≡ 0) × (means b ≡ block_at rest.now)) (λ c. cause_number c ≡ cause_at rest.now) }
{
    let (&[number, _, byte], bytes) = covered(rest)?
        .split_first_chunk::<BEFORE_BODY>()
        .ok_or(Cause::Torn)?;
    let part = byte / PART_WEIGHT % PART_WEIGHT;
    let last = byte % PART_WEIGHT;
    if part > last {
        return Err(Cause::Part);
    }
    let (body, check) = body_and_check(bytes, last_of_several(part, last))?;
    Ok(Block {
        number,
        version: byte / VERSION_WEIGHT,
        part,
        last,
        body,
        check,
    })
}

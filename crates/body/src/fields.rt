// The fields that several places of a body may hold: some bytes, a time and a channel.
ghost use Rattle.std.specs.Prelude.{◌≡◌, ◌+◌, length, take, drop, nat_lt};
ghost use Rattle.buffers.specs.Places.{unless, wrong};
ghost use Rattle.refusal.specs.declared.Refusal.TheVariants.{Body};
ghost use Rattle.body.specs.Reading.{reading, time_at, time_fault, channel_of, channel_fault};

use super::layout::{CHANNEL_SIZE, MILLISECONDS_MOST, MILLISECONDS_OFFSET, TEN_BITS, TIME_SIZE};
use super::message::{Channel, Time};
use refusal::Refusal;

// The bytes of a field that begins at a place of a body. Where one lacks, the body is refused at its length. Body and place stay
// two arguments: a refusal tells a place in the whole body, so the rest alone would not do.
pub(crate) fn field<const N: usize>(body: &[u8], at: usize) -> Result<[u8; N], Refusal>
    ensures { result ≡ unless Body (wrong (nat_lt (length body.now) (at + N)) (length body.now)) (take N (drop at body.now)) }
{
    let lacks = Refusal::Body(body.len());
    let rest = body.get(at..).ok_or(lacks)?;
    let bytes = rest.first_chunk::<N>().ok_or(lacks)?;
    Ok(*bytes)
}

// The time that begins at a place of a body. Milliseconds are the last ten bits; the six before them are not looked at.
pub(crate) fn time_at(body: &[u8], at: usize) -> Result<Time, Refusal>
    ensures { result ≡ reading (time_fault at) (time_at at) body.now }
{
    let [s0, s1, s2, s3, high, low] = field::<TIME_SIZE>(body, at)?;
    let milliseconds = u16::from_be_bytes([high, low]) % TEN_BITS as u16;
    if milliseconds > MILLISECONDS_MOST {
        return Err(Refusal::Body(at + MILLISECONDS_OFFSET));
    }
    let seconds = u32::from_be_bytes([s0, s1, s2, s3]);
    Ok(Time {
        seconds,
        milliseconds,
    })
}

// The channel that begins at a place of a body: after BSID and four bits that are not looked at, ten bits and ten bits.
pub(crate) fn channel_at(body: &[u8], at: usize) -> Result<Channel, Refusal>
    ensures { result ≡ reading (channel_fault at) (channel_of at) body.now }
{
    let [b0, b1, high, middle, low] = field::<CHANNEL_SIZE>(body, at)?;
    let numbers = u32::from_be_bytes([0, high, middle, low]);
    Ok(Channel {
        bsid: u16::from_be_bytes([b0, b1]),
        major: (numbers / TEN_BITS % TEN_BITS) as u16,
        minor: (numbers % TEN_BITS) as u16,
    })
}

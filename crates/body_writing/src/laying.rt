// The fields of a message as bytes, reserved bits as ones, and laid into an output, one after another.
ghost use Rattle.std.specs.Prelude.{◌≡◌, ◌≤◌, None, Some, option_map};
ghost use Rattle.body.specs.Format.{ones, time_bytes, content_bytes, channel_bytes, flags_byte, content_id_bytes, content_wrong, content_id_wrong};
ghost use Rattle.body.specs.Identifiers.{is_alphanumeric};
ghost use Rattle.body.specs.Messages.{identified, said_content_id};
ghost use Rattle.body_writing.specs.Outputs.{Lays, or_nothing};

use body::{
    CHANNEL_FLAG, CHANNEL_RESERVED, CHANNEL_SIZE, CONTENT_FLAG, CONTENT_ONES, Channel, Content,
    ContentId, FLAGS_ONES, TEN_BITS, TIME_RESERVED, TIME_SIZE, Time, UNTIL_FLAG,
};
use buffers::lay;

// A time as bytes: seconds, six ones, milliseconds.
pub(crate) fn time_as_bytes(time: Time) -> [u8; TIME_SIZE]
    requires { time.milliseconds ≤ 999 }
    ensures { result ≡ time_bytes ones.time time }
{
    let [s0, s1, s2, s3] = time.seconds.to_be_bytes();
    let [high, low] = (TIME_RESERVED + time.milliseconds).to_be_bytes();
    [s0, s1, s2, s3, high, low]
}

// A channel as bytes: BSID, four ones, major and minor number.
pub(crate) fn channel_as_bytes(channel: Channel) -> [u8; CHANNEL_SIZE]
    requires major { channel.major ≤ 1023 }
    requires minor { channel.minor ≤ 1023 }
    ensures { result ≡ channel_bytes ones.channel (Some channel) }
{
    let [b0, b1] = channel.bsid.to_be_bytes();
    let numbers = CHANNEL_RESERVED + channel.major as u32 * TEN_BITS + channel.minor as u32;
    let [_, high, middle, low] = numbers.to_be_bytes();
    [b0, b1, high, middle, low]
}

// The first byte: which parts follow, and six ones.
fn first_byte(message: &ContentId) -> u8
    ensures { result ≡ flags_byte ones.flags (option_map identified message.now.content) message.now.channel }
{
    let content = message.content.map_or(0, |_| CONTENT_FLAG);
    let channel = message.channel.map_or(0, |_| CHANNEL_FLAG);
    content + channel + FLAGS_ONES
}

// Writes a part where there is one, and answers where it ends.
fn lay_part<const N: usize>(out: &mut [u8], at: usize, part: Option<[u8; N]>) -> Option<usize>
    ensures { Lays at (or_nothing part.entry) out.old result out.new }
{
    match part {
        Some(bytes) => lay(out, at, &bytes),
        None => Some(at),
    }
}

// Writes a content where there is one, and answers where it ends: a one, whether valid-until follows, type; length; time; identifier.
fn lay_content(out: &mut [u8], at: usize, content: &Option<Content>) -> Option<usize>
    requires { content_wrong is_alphanumeric (option_map identified content.now) ≡ None }
    ensures { Lays at (content_bytes ones (option_map identified content.now)) out.old result out.new }
{
    let Some(content) = content else {
        return Some(at);
    };
    let flags = content
        .valid_until
        .map_or(CONTENT_ONES, |_| CONTENT_ONES + UNTIL_FLAG);
    let until_at = lay(out, at, &[flags + content.id_type, content.id.len() as u8])?;
    let id_at = lay_part(out, until_at, content.valid_until.map(time_as_bytes))?;
    lay(out, id_at, content.id)
}

// Writes a message that has no wrong value, and answers where it ends.
pub(crate) fn lay_message(out: &mut [u8], message: &ContentId) -> Option<usize>
    requires { content_id_wrong is_alphanumeric (said_content_id message.now) ≡ None }
    ensures { Lays 0 (content_id_bytes ones (said_content_id message.now)) out.old result out.new }
{
    let content_at = lay(out, 0, &[first_byte(message)])?;
    let channel_at = lay_content(out, content_at, &message.content)?;
    lay_part(out, channel_at, message.channel.map(channel_as_bytes))
}

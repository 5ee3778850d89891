// The reading of a content ID body: flags, content, channel, and nothing after them.
ghost use Rattle.std.specs.Prelude.{◌≡◌};
ghost use Rattle.buffers.specs.Places.{told};
ghost use Rattle.body.specs.Identifiers.{is_alphanumeric};
ghost use Rattle.body.specs.Messages.{said_content_id};
ghost use Rattle.body.specs.Reading.{reading, content_id_fault, content_id_of};

use super::content::content_in;
use super::fields::{channel_at, field};
use super::layout::{CHANNEL_FLAG, CHANNEL_SIZE, CONTENT_FLAG, FLAGS_SIZE};
use super::message::ContentId;
use refusal::Refusal;

// Reads a content ID body.
pub(crate) fn read<'a>(body: &'a [u8]) -> Result<ContentId<'a>, Refusal>
    ensures { told said_content_id result ≡ reading (content_id_fault is_alphanumeric) content_id_of body.now }
{
    let [flags] = field::<FLAGS_SIZE>(body, 0)?;
    if flags < CHANNEL_FLAG {
        return Err(Refusal::Body(0));
    }
    let has_content = flags >= CONTENT_FLAG;
    let content = has_content.then(|| content_in(body)).transpose()?;
    let at = content.map_or(FLAGS_SIZE, |c| c.end());
    let has_channel = flags % CONTENT_FLAG >= CHANNEL_FLAG;
    let channel = has_channel.then(|| channel_at(body, at)).transpose()?;
    let end = channel.map_or(at, |_| at + CHANNEL_SIZE);
    if end < body.len() {
        return Err(Refusal::Body(end));
    }
    Ok(ContentId { content, channel })
}

// The values of a message that no body can have, in the order of their places, and how many bytes a message takes.
ghost use Rattle.std.specs.Prelude.{◌≡◌, ◌+◌, ◌^◌, ◌<◌, length, Some, option_map};
ghost use Rattle.body.specs.Format.{ones, content_bytes, content_id_bytes, time_wrong, content_wrong, channel_wrong, content_id_wrong};
ghost use Rattle.body.specs.Identifiers.{is_alphanumeric};
ghost use Rattle.body.specs.Messages.{identified, said_content_id};

use body::{
    CHANNEL_NUMBER_MOST, CHANNEL_SIZE, Channel, Content, ContentId, FLAGS_SIZE, LENGTH_PLACE,
    MAJOR_OFFSET, MILLISECONDS_MOST, MILLISECONDS_OFFSET, MINOR_OFFSET, TYPE_MOST, TYPE_PLACE,
    Time, UNTIL_PLACE, fits_length, id_place, wrong_character,
};

// Where the channel of a message begins in its body, or would.
fn channel_place(message: &ContentId) -> usize
    ensures place { result ≡ 1 + length (content_bytes ones (option_map identified message.now.content)) }
    ensures near { result < 2 ^ 63 + 9 }
{
    message.content.map_or(FLAGS_SIZE, |content| content.end())
}

// How many bytes a message takes.
pub(crate) fn message_size(message: &ContentId) -> usize
    ensures { result ≡ length (content_id_bytes ones (said_content_id message.now)) }
{
    channel_place(message) + message.channel.map_or(0, |_| CHANNEL_SIZE)
}

// The place of the first value that no time has in a body, where the time begins at a place.
pub(crate) fn wrong_in_time(at: usize, time: Time) -> Option<usize>
    requires { at < 16 }
    ensures { result ≡ time_wrong at time }
{
    (time.milliseconds > MILLISECONDS_MOST).then_some(at + MILLISECONDS_OFFSET)
}

// The place of the first value that no channel has, where the channel begins at a place.
fn wrong_in_channel(at: usize, channel: Option<Channel>) -> Option<usize>
    requires { at + 3 < 2 ^ 64 }
    ensures { result ≡ channel_wrong at channel }
{
    match channel {
        Some(c) if c.major > CHANNEL_NUMBER_MOST => Some(at + MAJOR_OFFSET),
        Some(c) if c.minor > CHANNEL_NUMBER_MOST => Some(at + MINOR_OFFSET),
        _ => None,
    }
}

// The place of the first value that no content has.
fn wrong_in_content(content: &Content) -> Option<usize>
    ensures { result ≡ content_wrong is_alphanumeric (Some (identified content.now)) }
{
    if content.id_type > TYPE_MOST {
        return Some(TYPE_PLACE);
    }
    if !fits_length(content.id_type, content.id.len()) {
        return Some(LENGTH_PLACE);
    }
    let late = content
        .valid_until
        .and_then(|time| wrong_in_time(UNTIL_PLACE, time));
    let misspelt = wrong_character(content.id_type, content.id);
    let id_at = id_place(content.valid_until);
    late.or(misspelt.map(|i| id_at + i))
}

// The place of a message's first value that no body can have.
pub(crate) fn wrong_in_message(message: &ContentId) -> Option<usize>
    ensures { result ≡ content_id_wrong is_alphanumeric (said_content_id message.now) }
{
    let nothing = message.content.is_none() && message.channel.is_none();
    let content = message
        .content
        .and_then(|content| wrong_in_content(&content));
    let channel = wrong_in_channel(channel_place(message), message.channel);
    nothing.then_some(0).or(content).or(channel)
}

// What is handed over in a tray: messages, read by their kind, and faults.
use crate::log::Log;
use body::{Content, ContentId, ContentIds, KindName, PresentationTimes, kind_of, read_body};
use showing::{Identifier, Text};
use std::io;
use tray::Entry;

// What a content ID message says.
fn print_content_id(log: Log, message: ContentId) -> io::Result<()> {
    if let Some(content) = message.content {
        log.say("content", Identifier::from(content))?;
        if let Some(time) = content.valid_until {
            log.say("until", time)?;
        }
    }
    match message.channel {
        Some(channel) => log.say("channel", channel),
        None => Ok(()),
    }
}

// What a message says.
fn print_body(log: Log, number: u8, body: &[u8]) -> io::Result<()> {
    match kind_of(number) {
        Some(KindName::ContentId) => match read_body::<ContentIds>(body) {
            Ok(message) => print_content_id(log, message),
            Err(refusal) => log.refused("body", refusal),
        },
        Some(KindName::PresentationTime) => match read_body::<PresentationTimes>(body) {
            Ok(time) => log.say("time", time),
            Err(refusal) => log.refused("body", refusal),
        },
        _ => log.say("plain", Text(body)),
    }
}

pub fn print_entry(log: Log, entry: Entry) -> io::Result<()> {
    match entry {
        Entry::Message {
            place: _,
            number,
            version,
            bytes,
        } => {
            let length = bytes.len();
            log.say(
                "handed",
                format_args!("number {number:>3} version {version:>2} bytes {length:>3}"),
            )?;
            print_body(log, number, bytes)
        }
        Entry::Fault {
            place: _,
            cause,
            number,
            at,
        } => {
            let layer = cause.layer();
            let cause = cause.number();
            log.say(
                "fault",
                format_args!("number {number:>3} layer {layer} cause {cause} place {at:>2}"),
            )
        }
    }
}

// The content that an entry tells of, if it does.
pub fn content_of(entry: Entry) -> Option<Content> {
    match entry {
        Entry::Message { number, bytes, .. } if kind_of(number) == Some(KindName::ContentId) => {
            read_body::<ContentIds>(bytes).ok()?.content
        }
        _ => None,
    }
}

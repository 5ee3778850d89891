// Cases of bodies, read and written.
use crate::case::Case;
use crate::text::{OrDash, Shown};
use body::{
    Channel, Content, ContentId, ContentIds, Format, PlainBytes, PresentationTimes, Time, read_body,
};
use body_writing::{WritableKind, write_body};
use std::fmt;
use words::{Hex, Stop, Words};

impl fmt::Display for Shown<Time> {
    fn fmt<W: fmt::Write>(&self, f: &mut fmt::Formatter<W>) -> fmt::Result {
        write!(f, "{}.{}", self.0.seconds, self.0.milliseconds)
    }
}

impl fmt::Display for Shown<Content<'_>> {
    fn fmt<W: fmt::Write>(&self, f: &mut fmt::Formatter<W>) -> fmt::Result {
        let until = OrDash(self.0.valid_until.map(Shown));
        write!(f, "{}:{until}:{}", self.0.id_type, Hex(self.0.id))
    }
}

impl fmt::Display for Shown<Channel> {
    fn fmt<W: fmt::Write>(&self, f: &mut fmt::Formatter<W>) -> fmt::Result {
        write!(f, "{}:{}:{}", self.0.bsid, self.0.major, self.0.minor)
    }
}

pub fn content(mut case: Case) -> Result<String, Stop> {
    let body = case.hex()?;
    case.words.end()?;
    let message = read_body::<ContentIds>(&body)?;
    let content = OrDash(message.content.map(Shown));
    let channel = OrDash(message.channel.map(Shown));
    Ok(format!(in case.heap; "content {content} channel {channel}")?)
}

pub fn time(mut case: Case) -> Result<String, Stop> {
    let body = case.hex()?;
    case.words.end()?;
    let time = read_body::<PresentationTimes>(&body)?;
    Ok(format!(in case.heap; "time {} {}", time.seconds, time.milliseconds)?)
}

pub fn plain(mut case: Case) -> Result<String, Stop> {
    let number = case.words.value()?;
    let body = case.hex()?;
    case.words.end()?;
    if !PlainBytes::takes(number) {
        return Ok(String::from_str(case.heap, "not-plain")?);
    }
    let bytes = Hex(read_body::<PlainBytes>(&body)?);
    Ok(format!(in case.heap; "plain {bytes}")?)
}

// A message as the body that is written for it, in an output of so many bytes.
fn written<'a, K: WritableKind<'a>>(
    case: Case,
    message: &K::Message,
    room: usize,
) -> Result<String, Stop> {
    let mut out = case.room(room)?;
    let length = write_body::<K>(message, &mut out)?;
    Ok(format!(in case.heap; "body {}", Hex(&out[..length]))?)
}

pub fn write_time(mut case: Case) -> Result<String, Stop> {
    let seconds = case.words.value()?;
    let milliseconds = case.words.value()?;
    let room = case.words.count()?;
    case.words.end()?;
    let time = Time {
        seconds,
        milliseconds,
    };
    written::<PresentationTimes>(case, &time, room)
}

// SECONDS MILLIS, none where SECONDS is.
fn read_time(words: &mut Words) -> Result<Option<Time>, Stop> {
    match (words.optional_value()?, words.optional_value()?) {
        (Some(seconds), Some(milliseconds)) => Ok(Some(Time {
            seconds,
            milliseconds,
        })),
        (Some(_), None) => Err(Stop::What),
        (None, _) => Ok(None),
    }
}

// BSID MAJOR MINOR, none where BSID is.
fn read_channel(words: &mut Words) -> Result<Option<Channel>, Stop> {
    match (
        words.optional_value()?,
        words.optional_value()?,
        words.optional_value()?,
    ) {
        (Some(bsid), Some(major), Some(minor)) => Ok(Some(Channel { bsid, major, minor })),
        (Some(_), _, _) => Err(Stop::What),
        (None, _, _) => Ok(None),
    }
}

pub fn write_content(mut case: Case) -> Result<String, Stop> {
    let kind = case.words.optional_value()?;
    let valid_until = read_time(&mut case.words)?;
    let id = case.hex()?;
    let channel = read_channel(&mut case.words)?;
    let room = case.words.count()?;
    case.words.end()?;
    let content = kind.map(|id_type| Content {
        id_type,
        valid_until,
        id: &id,
    });
    written::<ContentIds>(case, &ContentId { content, channel }, room)
}

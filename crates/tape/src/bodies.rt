// One body of each kind, written and read back, and one that is refused.
use body::{
    Channel, Content, ContentId, ContentIds, Kind, PlainBytes, PresentationTimes, Time, read_body,
};
use body_writing::{WritableKind, write_body};
use showing::{CHANNEL, Hex, Identifier, SPOT, TITLE, Text};
use std::{fmt, io};

// What a message says beside its body, a line for each thing.
#[derive(Clone, Copy)]
struct Said<T>(T);

impl fmt::Display for Said<Content<'_>> {
    fn fmt<W: fmt::Write>(&self, f: &mut fmt::Formatter<W>) -> fmt::Result {
        match Identifier::from(self.0) {
            Identifier::Eidr(id) => writeln!(f, "  EIDR        {}", Hex(id))?,
            Identifier::AdId(id) => writeln!(f, "  Ad-ID        {}", Text(id))?,
            Identifier::Other(_, id) => writeln!(f, "  identifier  {}", Hex(id))?,
        }
        match self.0.valid_until {
            Some(time) => writeln!(f, "  valid until  {time}"),
            None => Ok(()),
        }
    }
}

impl fmt::Display for Said<ContentId<'_>> {
    fn fmt<W: fmt::Write>(&self, f: &mut fmt::Formatter<W>) -> fmt::Result {
        if let Some(content) = self.0.content {
            write!(f, "{}", Said(content))?;
        }
        match self.0.channel {
            Some(channel) => writeln!(f, "  channel      {channel}"),
            None => Ok(()),
        }
    }
}

impl fmt::Display for Said<Time> {
    fn fmt<W: fmt::Write>(&self, f: &mut fmt::Formatter<W>) -> fmt::Result {
        writeln!(f, "  time         {}", self.0)
    }
}

// Plain bytes are the body.
impl fmt::Display for Said<&[u8]> {
    fn fmt<W: fmt::Write>(&self, _f: &mut fmt::Formatter<W>) -> fmt::Result {
        Ok(())
    }
}

// Prints a body and what it says, or that it is refused.
fn show_body<'a, K: Kind<'a>>(rt: &HostRuntime, label: &str, body: &'a [u8]) -> io::Result<()>
where
    K::Message: Drop,
    Said<K::Message>: fmt::Display,
{
    println!(rt; "{label:<14}{}", Hex(body))?;
    match read_body::<K>(body) {
        Ok(message) => print!(rt; "{}", Said(message)),
        Err(refusal) => println!(rt; "refused {refusal}"),
    }
}

// Writes a message, and prints its body and what that says.
fn show_message<'a, K: WritableKind<'a>>(
    rt: &HostRuntime,
    label: &str,
    message: &K::Message,
    out: &'a mut [u8],
) -> anyhow::Result<()>
where
    K::Message: Drop,
    Said<K::Message>: fmt::Display,
{
    let length = write_body::<K>(message, out)?;
    show_body::<K>(rt, label, &out[..length])?;
    Ok(())
}

fn show_content_id(
    rt: &HostRuntime,
    content: Option<Content>,
    channel: Option<Channel>,
) -> anyhow::Result<()> {
    let message = ContentId { content, channel };
    show_message::<ContentIds>(rt, "content ID", &message, &mut [0; 64])
}

pub fn show(rt: &HostRuntime) -> anyhow::Result<()> {
    let until = Time {
        seconds: 1,
        milliseconds: 999,
    };
    let spot = Content {
        valid_until: Some(until),
        ..SPOT
    };
    println!(rt; "Bodies: one of each kind, written and read back, and one that is refused")?;
    show_message::<PresentationTimes>(rt, "presentation", &until, &mut [0; 6])?;
    show_content_id(rt, None, Some(CHANNEL))?;
    show_content_id(rt, Some(TITLE), None)?;
    show_content_id(rt, Some(spot), Some(CHANNEL))?;
    show_body::<PlainBytes>(rt, "plain", &[0xca, 0xfe])?;
    show_body::<ContentIds>(rt, "content ID", &[0xbf, 0x82, 11, b'R', b'U', b'-'])?;
    Ok(())
}

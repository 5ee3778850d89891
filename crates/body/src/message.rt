// The messages that bodies hold.
ghost use Rattle.std.specs.Prelude.{◌≡◌, ◌+◌, length, Some};
ghost use Rattle.body.specs.Format.{id_place};
ghost use Rattle.body.specs.Texts.{time_text, channel_text};

use super::layout::{LATE_ID_PLACE, UNTIL_PLACE};
use std::fmt;

// A moment: seconds, and milliseconds of which a body has at most 999.
#[derive(Clone, Copy, PartialEq, Eq, Debug)]
pub struct Time {
    pub seconds: u32,
    pub milliseconds: u16,
}

// As 1.040.
impl fmt::Display for Time {
    ghost output = { λ t. Some (time_text t) };

    fn fmt<W: fmt::Write>(&self, f: &mut fmt::Formatter<W>) -> fmt::Result {
        write!(f, "{}.{:03}", self.seconds, self.milliseconds)
    }
}

// A broadcast stream, by its BSID, and the channel on it, as major.minor.
#[derive(Clone, Copy, PartialEq, Eq, Debug)]
pub struct Channel {
    pub bsid: u16,
    pub major: u16,
    pub minor: u16,
}

// As 5.1 of BSID 0102.
impl fmt::Display for Channel {
    ghost output = { λ c. Some (channel_text c) };

    fn fmt<W: fmt::Write>(&self, f: &mut fmt::Formatter<W>) -> fmt::Result {
        write!(f, "{}.{} of BSID {:04X}", self.major, self.minor, self.bsid)
    }
}

// A content: the type of its identifier, until when it is valid, and the identifier, a part of the body.
#[derive(Clone, Copy, PartialEq, Eq, Debug)]
pub struct Content<'a> {
    // a number: each of 64 may stand here, and in an enum a case for those without a name could hold a named one too
    pub id_type: u8,
    pub valid_until: Option<Time>,
    pub id: &'a [u8],
}

// Where the identifier begins in a body: after the valid-until time, if there is one.
pub fn id_place(valid_until: Option<Time>) -> usize
    ensures place { result ≡ id_place valid_until }
{
    valid_until.map_or(UNTIL_PLACE, |_| LATE_ID_PLACE)
}

impl<'a> Content<'a> {
    // Where the content ends in a body that has it.
    pub fn end(&self) -> usize
        ensures place { result ≡ id_place self.now.valid_until + length self.now.id.now }
    {
        id_place(self.valid_until) + self.id.len()
    }
}

// What a content ID body says: a content, a channel, or both.
#[derive(Clone, Copy, PartialEq, Eq, Debug)]
pub struct ContentId<'a> {
    pub content: Option<Content<'a>>,
    pub channel: Option<Channel>,
}

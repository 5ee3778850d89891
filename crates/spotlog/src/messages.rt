// The messages of the tape, each in a sending.
use body::{
    AD_ID_TYPE, CONTENT_ID, Channel, Content, ContentId, ContentIds, PRESENTATION_TIME,
    PresentationTimes, Time,
};
use body_writing::{WritableKind, write_body};
use refusal::Refusal;
use sending::{Room, Sending};
use showing::{CHANNEL, SPOT, TITLE};

// The message numbers beside content IDs and presentation times: the log is watched, the other one isn't.
pub const LOG: u8 = 7;

const UNWATCHED: u8 = 9;

// No content ID: an Ad-ID has digits and letters only.
const WRONG_BODY: &[u8] = b"\xBF\x82\x0BRUEL-043000";

const LOG_TEXT: &[u8] = b"reference tape 42, reel 3, made for meter tests";

const NEXT_LOG_TEXT: &[u8] = b"reference tape 42, reel 4";

const NEXT_SPOT: Content<'static> = Content {
    id_type: AD_ID_TYPE,
    valid_until: Some(Time {
        seconds: 2_000_000,
        milliseconds: 999,
    }),
    id: b"RUEL0043000",
};

// When the tape begins, and when the second spot does.
const BEGIN: u32 = 1_000_000;

const BREAK: u32 = 1_000_016;

// What a block of the tape is a part of.
#[derive(Clone, Copy, PartialEq, Eq, Debug)]
pub enum Piece {
    Title,
    Spot,
    NextSpot,
    Log,
    NextLog,
    Other,
    Begin,
    Break,
    Wrong,
}

// A message of some kind, written and cut.
fn sent<'a, K: WritableKind<'a>>(
    number: u8,
    version: u8,
    message: &K::Message,
    room: Room,
) -> Result<Sending, Refusal> {
    // lent to `write_body`, which allocates nothing and answers how much it wrote
    let mut body = [0u8; 64];
    let length = write_body::<K>(message, &mut body)?;
    Sending::cut(number, version, &body[..length], room)
}

fn content_id(
    version: u8,
    content: Content,
    channel: Option<Channel>,
    room: Room,
) -> Result<Sending, Refusal> {
    let message = ContentId {
        content: Some(content),
        channel,
    };
    sent::<ContentIds>(CONTENT_ID, version, &message, room)
}

fn moment(version: u8, seconds: u32) -> Result<Sending, Refusal> {
    let time = Time {
        seconds,
        milliseconds: 40,
    };
    sent::<PresentationTimes>(PRESENTATION_TIME, version, &time, Room::OneX)
}

impl Piece {
    pub fn sending(self) -> Result<Sending, Refusal> {
        match self {
            Piece::Title => content_id(0, TITLE, None, Room::OneX),
            Piece::Spot => content_id(1, SPOT, Some(CHANNEL), Room::OneX),
            Piece::NextSpot => content_id(2, NEXT_SPOT, Some(CHANNEL), Room::TwoX),
            Piece::Log => Sending::cut(LOG, 0, LOG_TEXT, Room::OneX),
            Piece::NextLog => Sending::cut(LOG, 1, NEXT_LOG_TEXT, Room::OneX),
            Piece::Other => Sending::cut(UNWATCHED, 0, b"reel 3", Room::OneX),
            Piece::Begin => moment(0, BEGIN),
            Piece::Break => moment(1, BREAK),
            Piece::Wrong => Sending::cut(CONTENT_ID, 3, WRONG_BODY, Room::TwoX),
        }
    }
}

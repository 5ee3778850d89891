// Message bodies: the kinds of message, their formats, and the reading of a body into its message, which borrows the
// body's bytes. Nothing here knows of blocks, lines or readers, or how a body is written (crate body_writing does).
#![tactic(auto)]

mod content;
mod fields;
mod identifier;
mod kind;
mod kinds;
mod layout;
mod message;
mod numbers;
mod reading;

pub use identifier::{fits_length, is_ad_character, wrong_character};
pub use kind::{Format, Kind, read_body};
pub use kinds::{ContentIds, PlainBytes, PresentationTimes};
pub use layout::{
    AD_ID_TYPE, CHANNEL_FLAG, CHANNEL_NUMBER_MOST, CHANNEL_ONES, CHANNEL_RESERVED, CHANNEL_SIZE,
    CONTENT_FLAG, CONTENT_ONES, EIDR_TYPE, FLAGS_ONES, FLAGS_SIZE, LATE_ID_PLACE, LENGTH_PLACE,
    MAJOR_LOW, MAJOR_OFFSET, MILLISECONDS_MOST, MILLISECONDS_OFFSET, MINOR_HIGH, MINOR_OFFSET,
    TEN_BITS, TIME_ONES, TIME_RESERVED, TIME_SIZE, TYPE_MOST, TYPE_PLACE, UNTIL_FLAG, UNTIL_PLACE,
};
pub use message::{Channel, Content, ContentId, Time, id_place};
pub use numbers::{CONTENT_ID, KindName, PRESENTATION_TIME, kind_of};

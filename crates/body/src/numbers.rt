// The kind of a message number.
ghost use Rattle.std.specs.Prelude.{◌≡◌};
ghost use Rattle.body.specs.Kinds.{kind_named, Split};

pub const CONTENT_ID: u8 = 1;

pub const PRESENTATION_TIME: u8 = 2;

// The three kinds.
#[derive(Clone, Copy, PartialEq, Eq, Debug)]
pub enum KindName {
    ContentId,
    PresentationTime,
    Plain,
}

// The kind of a message number: each number from 1 to 255 is of exactly one, 0 of none.
pub fn kind_of(number: u8) -> Option<KindName>
    ensures answer { result ≡ kind_named number }
    ensures split { Split }
{
    match number {
        0 => None,
        CONTENT_ID => Some(KindName::ContentId),
        PRESENTATION_TIME => Some(KindName::PresentationTime),
        _ => Some(KindName::Plain),
    }
}

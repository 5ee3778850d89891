// The identifier of a content.
ghost use Rattle.std.specs.Prelude.{◌≡◌, Some};
ghost use Rattle.showing.specs.Identifiers.{identifier_of};
ghost use Rattle.showing.specs.Texts.{identifier_text};

use crate::printed::{Hex, Text};
use body::{AD_ID_TYPE, Content, EIDR_TYPE};
use std::fmt;

// An identifier by its type.
#[derive(Clone, Copy, PartialEq, Eq, Debug)]
pub enum Identifier<'a> {
    Eidr(&'a [u8]),
    AdId(&'a [u8]),
    Other(u8, &'a [u8]),
}

impl<'a> From<Content<'a>> for Identifier<'a> {
    ghost from_gives = { λ content r. r ≡ identifier_of content };

    fn from(content: Content<'a>) -> Identifier<'a> {
        match content.id_type {
            EIDR_TYPE => Identifier::Eidr(content.id),
            AD_ID_TYPE => Identifier::AdId(content.id),
            id_type => Identifier::Other(id_type, content.id),
        }
    }
}

impl fmt::Display for Identifier<'_> {
    ghost output = { λ identifier. Some (identifier_text identifier) };

    fn fmt<W: fmt::Write>(&self, f: &mut fmt::Formatter<W>) -> fmt::Result {
        match self {
            Identifier::Eidr(id) => write!(f, "EIDR{}", Hex(id)),
            Identifier::AdId(id) => write!(f, "Ad-ID {}", Text(id)),
            Identifier::Other(id_type, id) => write!(f, "type {id_type}{}", Hex(id)),
        }
    }
}

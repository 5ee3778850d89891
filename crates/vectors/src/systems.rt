// The three line systems that cases name.
use crate::any_of::AnyOf;
use line::depth::Depth;
use onex::levels::Levels;
use onex::one_x::OneX;
use refusal::Refusal;
use system::joins::first_else;
use twox::one_two::{OneElseTwo, one_else_two};
use twox::two_x::TwoX;
use words::Stop;

// A system's name.
#[derive(Clone, Copy, PartialEq, Eq, Debug)]
pub enum Name {
    OneX,
    TwoX,
    OneElseTwo,
}

impl TryFrom<&[u8]> for Name {
    type Error = Stop;

    fn try_from(word: &[u8]) -> Result<Name, Stop> {
        match word {
            b"1x" => Ok(Name::OneX),
            b"2x" => Ok(Name::TwoX),
            b"1x-else-2x" => Ok(Name::OneElseTwo),
            _ => Err(Stop::What),
        }
    }
}

pub type System = AnyOf<OneX, TwoX, OneElseTwo>;

impl Name {
    // The system that draws with these levels. 2X has its own.
    pub fn drawing_with(self, depth: Depth, zero: u16, one: u16) -> Result<System, Refusal> {
        match self {
            Name::OneX => Ok(AnyOf::One(OneX::new(Levels::new(depth, zero, one)?))),
            Name::TwoX => Ok(AnyOf::Two(TwoX::new(depth))),
            Name::OneElseTwo => {
                let first = OneX::new(Levels::new(depth, zero, one)?);
                Ok(AnyOf::Both(first_else(first, TwoX::new(depth))?))
            }
        }
    }

    // The system to read by, whose levels don't matter.
    pub fn reading(self, depth: Depth) -> System {
        match self {
            Name::OneX => AnyOf::One(OneX::new(Levels::usual(depth))),
            Name::TwoX => AnyOf::Two(TwoX::new(depth)),
            Name::OneElseTwo => AnyOf::Both(one_else_two(depth)),
        }
    }
}

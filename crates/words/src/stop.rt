// Why a case has no plain answer.
ghost use Rattle.std.specs.Prelude.{◌≡◌};
ghost use Rattle.words.specs.declared.stop.Stop.TheVariants.{What, Refused, Memory};
ghost use Rattle.words.specs.Digits.{stop_of};

use hex::FromHexError;
use refusal::Refusal;
use std::alloc::{AllocError, AllocFailed};

#[derive(Clone, Copy, PartialEq, Eq, Debug)]
pub enum Stop {
    // its words fit no form
    What,
    // a call refused what it asks
    Refused(Refusal),
    // no memory was left
    Memory,
}

impl From<AllocError> for Stop {
    ghost from_gives = { λ _ r. r ≡ Memory };

    fn from(_none: AllocError) -> Stop {
        Stop::Memory
    }
}

impl<T: Drop> From<AllocFailed<T>> for Stop {
    ghost from_gives = { λ _ r. r ≡ Memory };

    fn from(_back: AllocFailed<T>) -> Stop {
        Stop::Memory
    }
}

impl From<FromHexError> for Stop {
    ghost from_gives = { λ e r. r ≡ stop_of e };

    fn from(error: FromHexError) -> Stop {
        match error {
            FromHexError::OutOfMemory => Stop::Memory,
            _ => Stop::What,
        }
    }
}

impl From<Refusal> for Stop {
    ghost from_gives = { λ e r. r ≡ Refused e };

    fn from(refusal: Refusal) -> Stop {
        Stop::Refused(refusal)
    }
}

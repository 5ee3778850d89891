// Calls on a reader, and what they come to.
use reader::Answer;
use refusal::Refusal;
use std::alloc::AllocError;
use std::error::Error;
use std::fmt;

// One call. No Option of an offer: a restart is a call like another, and not the lack of one.
#[derive(Clone, Copy, PartialEq, Eq, Debug)]
pub enum Call<'a> {
    // a line is offered at a frame number, with a tray that holds these bytes
    Offer {
        frame: u64,
        line: &'a [u16],
        tray: &'a [u8],
    },
    Restart,
}

// What one call came to, with a case for each kind of call.
#[derive(PartialEq, Eq, Debug, Drop)]
pub enum Outcome {
    // the answer to an offer, and its tray afterwards
    Offered {
        result: Result<Answer, Refusal>,
        tray: Vec<u8>,
    },
    Restarted,
}

// Why a list of calls was not replayed.
#[derive(Clone, Copy, PartialEq, Eq, Debug)]
pub enum ReplayError {
    // the watch list is refused
    Watch(Refusal),
    // no memory for the outcomes
    Memory,
}

impl From<Refusal> for ReplayError {
    ghost use Rattle.std.specs.Prelude.{◌≡◌};
    ghost use Rattle.replay.specs.declared.call.ReplayError.TheVariants.{Watch};

    ghost from_gives = { λ refusal error. error ≡ Watch refusal };

    fn from(refusal: Refusal) -> ReplayError {
        ReplayError::Watch(refusal)
    }
}

impl From<AllocError> for ReplayError {
    ghost use Rattle.std.specs.Prelude.{◌≡◌};
    ghost use Rattle.replay.specs.declared.call.ReplayError.TheVariants.{Memory};

    ghost from_gives = { λ _ error. error ≡ Memory };

    fn from(_error: AllocError) -> ReplayError {
        ReplayError::Memory
    }
}

impl fmt::Display for ReplayError {
    ghost use Rattle.std.specs.Prelude.{Some};
    ghost use Rattle.replay.specs.Replaying.{replay_text};

    ghost output = { λ error. Some (replay_text error) };

    fn fmt<W: fmt::Write>(&self, f: &mut fmt::Formatter<W>) -> fmt::Result {
        match self {
            ReplayError::Watch(refusal) => write!(f, "watch list refused: {refusal}"),
            ReplayError::Memory => f.write_str("no memory for the outcomes"),
        }
    }
}

impl Error for ReplayError {}

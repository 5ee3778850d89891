// What the call tells, in a form that C has.
ghost use Rattle.std.specs.Prelude.{◌≡◌};

use refusal::Refusal;

// A refusal's number and place, or the payload's length. A number of 0 is no refusal, a length of 0 is no run-in: plain numbers,
// since C has neither Option nor Result.
#[repr(C)]
#[derive(Clone, Copy, PartialEq, Eq, Debug)]
pub struct LineReading {
    pub refusal: u32,
    pub place: u64,
    pub length: u64,
}

impl From<Result<Option<usize>, Refusal>> for LineReading {
    ghost use Rattle.capture.specs.Numbers.{in_numbers};

    ghost from_gives = { λ answer reading. reading ≡ in_numbers answer };

    fn from(answer: Result<Option<usize>, Refusal>) -> LineReading {
        let (refusal, place, length) = match answer {
            Ok(Some(found)) => (0, 0, found as u64),
            Ok(None) => (0, 0, 0),
            Err(refusal) => (u32::from(refusal.number()), refusal.place(), 0),
        };
        LineReading {
            refusal,
            place,
            length,
        }
    }
}

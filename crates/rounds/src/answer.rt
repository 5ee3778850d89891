// What the last offer came to, in a form that C has.
use reader::Answer;
use refusal::Refusal;

// A refusal's number and place; or a payload's length, the bytes used in the tray, and the blocks skipped. A number of 0 is no
// refusal, a length of 0 is no run-in. Plain numbers, since C has neither Option nor Result.
#[repr(C)]
#[derive(Clone, Copy, PartialEq, Eq, Debug)]
pub struct OfferReading {
    pub refusal: u32,
    pub place: u64,
    pub length: u64,
    pub used: u64,
    pub skipped: u64,
}

impl From<Result<Answer, Refusal>> for OfferReading {
    ghost use Rattle.std.specs.Prelude.{◌≡◌};
    ghost use Rattle.reader.specs.Answers as answers;
    ghost use Rattle.rounds.specs.Numbers.{in_numbers};

    ghost from_gives = { λ answer reading. reading ≡ in_numbers (answers.told answer) };

    fn from(answer: Result<Answer, Refusal>) -> OfferReading {
        match answer {
            Ok(answer) => OfferReading {
                refusal: 0,
                place: 0,
                length: answer.length as u64,
                used: answer.used as u64,
                skipped: answer.skipped as u64,
            },
            Err(refusal) => OfferReading {
                refusal: u32::from(refusal.number()),
                place: refusal.place(),
                length: 0,
                used: 0,
                skipped: 0,
            },
        }
    }
}

// The three kinds: content IDs, presentation times, and plain bytes under every other number.
ghost use Rattle.std.specs.Prelude.{◌≡◌, refl};
ghost use Rattle.std.proofs.Common.{ap, ◌∙◌, sym, arith};
ghost use Rattle.body.specs.Faults.{ContentIdFaulty, PresentationFaulty, PlainFaulty};
ghost use Rattle.body.specs.Format.{content_id_bytes, content_id_wrong, presentation_bytes, presentation_wrong, plain_bytes, plain_wrong, ones};
ghost use Rattle.body.specs.Identifiers.{is_alphanumeric};
ghost use Rattle.body.specs.Kinds.{is_content_id, is_presentation, is_plain};
ghost use Rattle.body.specs.Messages.{presentation, plain, said_content_id};
ghost use Rattle.body.specs.Reading.{content_id_fault, content_id_of, presentation_fault, presentation_of, plain_fault};
ghost use Rattle.body.specs.Leasts;
ghost use Rattle.body.specs.Accepts.{content_id_written, presentation_written};
ghost use Rattle.body.specs.Reading;
ghost use Rattle.body.specs.Rounds.{round, presentation_round};
ghost use Rattle.body.specs.Leasts.{presentation_smallest};
ghost use Rattle.buffers.specs.Places.{nowhere};
ghost use Rattle.body.specs.PlainFormatLemmas.{read_plain};

use super::fields::time_at;
use super::kind::{Format, Kind};
use super::layout::TIME_SIZE;
use super::message::{ContentId, Time};
use super::numbers::{KindName, kind_of};
use super::reading::read;
use refusal::Refusal;

// Content IDs: a content, a channel, or both.
pub struct ContentIds;

impl Format for ContentIds {
    ghost numbers = { is_content_id };

    ghost fault = { content_id_fault is_alphanumeric };

    ghost says = { content_id_of };

    ghost faulty = { ContentIdFaulty is_alphanumeric };

    ghost wrong = { content_id_wrong is_alphanumeric };

    ghost bytes = { content_id_bytes };

    ghost smallest = { λ b. Leasts.smallest is_alphanumeric b };

    ghost only = { λ b bs e. content_id_written is_alphanumeric b bs e };

    ghost every = { λ m b w. round is_alphanumeric w.reserved w.fitting m w.right ∙ ap (Reading.reading (content_id_fault is_alphanumeric) content_id_of) (sym w.written) };

    fn takes(number: u8) -> bool {
        kind_of(number) == Some(KindName::ContentId)
    }

    fn check(body: &[u8]) -> Result<(), Refusal> {
        read(body).map(|_| ())
    }
}

impl<'a> Kind<'a> for ContentIds {
    type Message = ContentId<'a>;

    ghost said = { said_content_id };

    fn read(body: &'a [u8]) -> Result<ContentId<'a>, Refusal> {
        read(body)
    }
}

// Presentation times: a time, and nothing after it.
pub struct PresentationTimes;

impl Format for PresentationTimes {
    ghost numbers = { is_presentation };

    ghost fault = { presentation_fault };

    ghost says = { presentation_of };

    ghost faulty = { PresentationFaulty };

    ghost wrong = { presentation_wrong };

    ghost bytes = { presentation_bytes };

    ghost smallest = { λ b. presentation_smallest b };

    ghost only = { λ b bs e. presentation_written b bs e };

    ghost every = { λ m b w. presentation_round w.reserved m w.right ∙ ap (Reading.reading presentation_fault presentation_of) (sym w.written) };

    fn takes(number: u8) -> bool {
        kind_of(number) == Some(KindName::PresentationTime)
    }

    fn check(body: &[u8]) -> Result<(), Refusal> {
        <PresentationTimes as Kind<'_>>::read(body).map(|_| ())
    }
}

impl<'a> Kind<'a> for PresentationTimes {
    type Message = Time;

    ghost said = { presentation };

    fn read(body: &'a [u8]) -> Result<Time, Refusal> {
        let time = time_at(body, 0)?;
        if body.len() > TIME_SIZE {
            return Err(Refusal::Body(TIME_SIZE));
        }
        Ok(time)
    }
}

// Plain bytes: the body of every other number, as it is.
pub struct PlainBytes;

impl Format for PlainBytes {
    ghost numbers = { is_plain };

    ghost fault = { plain_fault };

    ghost says = { plain };

    ghost faulty = { PlainFaulty };

    ghost wrong = { plain_wrong };

    ghost bytes = { plain_bytes };

    ghost smallest = { λ b. nowhere (λ q w. w) };

    ghost only = { λ b bs e. record { right = refl; reserved = ones; fitting = record { flags = omega arith; content = omega arith; time = omega arith; channel = omega arith }; written = refl } };

    ghost every = { λ m b w. read_plain m b w };

    fn takes(number: u8) -> bool {
        kind_of(number) == Some(KindName::Plain)
    }

    fn check(body: &[u8]) -> Result<(), Refusal> {
        <PlainBytes as Kind<'_>>::read(body).map(|_| ())
    }
}

impl<'a> Kind<'a> for PlainBytes {
    type Message = &'a [u8];

    ghost said = { λ m. plain m.now };

    fn read(body: &'a [u8]) -> Result<&'a [u8], Refusal> {
        Ok(body)
    }
}

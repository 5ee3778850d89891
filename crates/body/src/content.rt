// The content of a content ID body.
ghost use Rattle.std.specs.Prelude.{◌≡◌};
ghost use Rattle.buffers.specs.Places.{told};
ghost use Rattle.body.specs.Identifiers.{is_alphanumeric};
ghost use Rattle.body.specs.Messages.{identified};
ghost use Rattle.body.specs.Reading.{reading, content_of, content_fault};

use super::fields::{field, time_at};
use super::identifier::{fits_length, wrong_character};
use super::layout::{CONTENT_ONES, LENGTH_PLACE, TYPE_PLACE, UNTIL_FLAG, UNTIL_PLACE};
use super::message::{Content, id_place};
use refusal::Refusal;

// The content that a body identifies.
#[tactic(auto, using(crate::proofs::Parts::there))]
pub(crate) fn content_in<'a>(body: &'a [u8]) -> Result<Content<'a>, Refusal>
    ensures { told identified result ≡ reading (content_fault is_alphanumeric) content_of body.now }
{
    let [head, length] = field::<2>(body, TYPE_PLACE)?;
    let (id_type, size) = (head % UNTIL_FLAG, length as usize);
    if !fits_length(id_type, size) {
        return Err(Refusal::Body(LENGTH_PLACE));
    }
    let has_until = head % CONTENT_ONES >= UNTIL_FLAG;
    let valid_until = has_until.then(|| time_at(body, UNTIL_PLACE)).transpose()?;
    let at = id_place(valid_until);
    let id = &body[at..body.len().min(at + size)];
    // no `?`: only here does a place in the identifier become one in the body
    if let Some(i) = wrong_character(id_type, id) {
        return Err(Refusal::Body(at + i));
    }
    if id.len() < size {
        return Err(Refusal::Body(body.len()));
    }
    Ok(Content {
        id_type,
        valid_until,
        id,
    })
}

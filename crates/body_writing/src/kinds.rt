// The kinds that are written: content IDs and presentation times.
ghost use Rattle.std.specs.Prelude.{◌≡◌};
ghost use Rattle.body.specs.Format.{presentation_wrong, ones};
ghost use Rattle.body.specs.Identifiers.{is_alphanumeric};
ghost use Rattle.body_writing.specs.Unfit.{ContentIdUnfit, PresentationUnfit};
ghost use Rattle.body_writing.specs.Unfits.{content_id_smallest, presentation_unfit_smallest};
ghost use Rattle.std.proofs.Common.{arith};
ghost use Rattle.body.specs.Rounds.{round, presentation_round};

use super::laying::{lay_message, time_as_bytes};
use super::values::{message_size, wrong_in_message, wrong_in_time};
use super::writable::{WritableFormat, WritableKind};
use super::writing::accept;
use body::{ContentId, ContentIds, PresentationTimes, TIME_SIZE, Time};
use buffers::lay;
use refusal::Refusal;

impl WritableFormat for ContentIds {
    ghost unfit = { ContentIdUnfit is_alphanumeric };

    ghost smallest = { λ m. content_id_smallest is_alphanumeric m };

    ghost back = { λ m e. round is_alphanumeric ones (record { flags = omega arith; content = omega arith; time = omega arith; channel = omega arith }) m e };
}

impl<'a> WritableKind<'a> for ContentIds {
    fn write(message: &ContentId<'a>, out: &mut [u8]) -> Result<usize, Refusal> {
        accept(out.len(), message_size(message), wrong_in_message(message))?;
        lay_message(out, message).ok_or(Refusal::OutputLength(out.len()))
    }
}

impl WritableFormat for PresentationTimes {
    ghost unfit = { PresentationUnfit };

    ghost smallest = { λ m. presentation_unfit_smallest m };

    ghost back = { λ m e. presentation_round ones m e };
}

impl<'a> WritableKind<'a> for PresentationTimes {
    fn write(message: &Time, out: &mut [u8]) -> Result<usize, Refusal> {
        accept(out.len(), TIME_SIZE, wrong_in_time(0, *message))?;
        lay(out, 0, &time_as_bytes(*message)).ok_or(Refusal::OutputLength(out.len()))
    }
}

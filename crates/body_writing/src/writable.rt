// Kinds that are written too, and the one call that writes a message and reads it back.
ghost use Rattle.std.specs.Prelude.{◌≡◌, ℕ, ◌≤◌, length, take, IfOk, None, Ok};
ghost use Rattle.buffers.specs.Places.{Smallest};
ghost use Rattle.body.specs.Format.{ones};
ghost use Rattle.body.specs.Laws.{RefusesFirst};
ghost use Rattle.body.specs.Messages.{Said};
ghost use Rattle.body.specs.Reading.{reading};
ghost use Rattle.body_writing.specs.Outputs.{write_answer, output_after};

use body::{Format, Kind};
use refusal::Refusal;

// A format that is written too.
pub trait WritableFormat: Format {
    // in words: a value of a message, at its place, that no body can have there
    ghost unfit: { Said → ℕ → Type 0 };

    // a message is refused at its smallest wrong place
    ghost smallest: { (m : Said) → Smallest (unfit m) (Self.Format.wrong m) };

    // what is written without a wrong value is read back as the same message
    ghost back: { (m : Said) → Self.Format.wrong m ≡ None → Ok m ≡ reading Self.Format.fault Self.Format.says (Self.Format.bytes ones m) };
}

// A kind that is written too.
pub trait WritableKind<'a>: Kind<'a> + WritableFormat {
    // Writes a message into an output, and answers the body's length. The bytes past it stay.
    fn write(message: &Self::Message, out: &mut [u8]) -> Result<usize, Refusal>
        ensures answer { result ≡ write_answer Self.Format.wrong Self.Format.bytes (Self.Kind.said message.now) out.old }
        ensures output { out.new ≡ output_after Self.Format.wrong Self.Format.bytes (Self.Kind.said message.now) out.old };
}

// Writes a message of any written kind, reads it back, and answers the body's length. A refused message leaves the output
// as it was; it is refused for an output too short, or else at the smallest place of a wrong value.
pub fn write_body<'a, K: WritableKind<'a>>(
    message: &K::Message,
    out: &mut [u8],
) -> Result<usize, Refusal>
    ensures answer { result ≡ write_answer K.Format.wrong K.Format.bytes (K.Kind.said message.now) out.old }
    ensures output { out.new ≡ output_after K.Format.wrong K.Format.bytes (K.Kind.said message.now) out.old }
    ensures within { IfOk result (λ n. n ≤ length out.old) }
    ensures back { IfOk result (λ n. reading K.Format.fault K.Format.says (take n out.new) ≡ Ok (K.Kind.said message.now)) }
    ensures refuses { RefusesFirst (K.WritableFormat.unfit (K.Kind.said message.now)) result }
{
    let n = K::write(message, out)?;
    K::check(&out[0..n])?;
    Ok(n)
}

// What is refused before a message is written.
ghost use Rattle.std.specs.Prelude.{◌≡◌, cond, Err, nat_lt};
ghost use Rattle.buffers.specs.Places.{unless};
ghost use Rattle.refusal.specs.declared.Refusal.TheVariants.{OutputLength, Body};

use refusal::Refusal;

// Refuses an output too short for a body of this size, or else a wrong value at its place.
pub(crate) fn accept(room: usize, size: usize, wrong: Option<usize>) -> Result<(), Refusal>
    ensures { result ≡ cond (nat_lt room size) (Err (OutputLength room)) (unless Body wrong tt) }
{
    if room < size {
        return Err(Refusal::OutputLength(room));
    }
    match wrong {
        Some(place) => Err(Refusal::Body(place)),
        None => Ok(()),
    }
}

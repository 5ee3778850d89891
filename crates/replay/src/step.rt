// Making calls, one after the other.
ghost use Rattle.std.specs.Prelude.{◌≡◌, [], ◌∷◌, ◌++◌, IfOk, OnOk};
ghost use Rattle.runs.specs.Pasts.{Past};
ghost use Rattle.runs.specs.Reaching.{Reached};
ghost use Rattle.reader.specs.Calls.{setting, state};
ghost use Rattle.replay.specs.Replaying.{call_of, plain, comes_to, goes_to, past_of};

use super::call::{Call, Outcome};
use reader::Reader;
use std::alloc::{AllocError, Global};
use system::system::LineSystem;

// Makes one call. An offer's tray is a copy of the call's, written by the offer.
pub(crate) fn apply<L: LineSystem>(
    heap: Global,
    reader: &mut Reader<L>,
    call: &Call<'_>,
) -> Result<Outcome, AllocError>
    ensures outcome { IfOk result (λ o. plain o ≡ comes_to (setting L.LineSystem reader.old) (state reader.old) (call_of call.now)) }
    ensures next { OnOk result (state reader.new ≡ goes_to (setting L.LineSystem reader.old) (state reader.old) (call_of call.now)) }
    ensures same { OnOk result (setting L.LineSystem reader.new ≡ setting L.LineSystem reader.old) }
    ensures prolongs { IfOk result (λ o. (past : Past) → Reached (setting L.LineSystem reader.old) past (state reader.old) → Reached (setting L.LineSystem reader.old) (past ++ past_of (call.now ∷ []) (plain o ∷ [])) (state reader.new)) }
{
    match call {
        Call::Restart => {
            reader.restart();
            Ok(Outcome::Restarted)
        }
        Call::Offer { frame, line, tray } => {
            let mut tray = tray.to_vec(heap)?;
            let result = reader.offer(*frame, line, &mut tray);
            Ok(Outcome::Offered { result, tray })
        }
    }
}

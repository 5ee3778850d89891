// Replaying a list of calls on a new reader.
ghost use Rattle.std.specs.Prelude.{◌≡◌, [], ◌∷◌, ◌++◌, map, IfOk};
ghost use Rattle.gather.specs.Watching.{watch_fault};
ghost use Rattle.runs.specs.Pasts.{Past};
ghost use Rattle.runs.specs.Reaching.{new as Fresh, Reached};
ghost use Rattle.reader.specs.Calls.{setting, state};
ghost use Rattle.reader.specs.Marks.{WholePromise};
ghost use Rattle.reader.specs.Settings.{setting_of};
ghost use Rattle.replay.specs.Replaying.{plain, run, past_of, Alike, Refuses};

use super::call::{Call, Outcome, ReplayError};
use super::step::apply;
use reader::Reader;
use std::alloc::{AllocError, Global};
use system::system::LineSystem;

// Makes the calls in order.
fn apply_all<L: LineSystem>(
    heap: Global,
    reader: &mut Reader<L>,
    calls: &[Call<'_>],
) -> Result<Vec<Outcome>, AllocError>
    ensures outcomes { IfOk result (λ v. map plain v.items ≡ run (setting L.LineSystem reader.old) (state reader.old) calls.now) }
    ensures prolongs { IfOk result (λ v. (past : Past) → Reached (setting L.LineSystem reader.old) past (state reader.old) → Reached (setting L.LineSystem reader.old) (past ++ past_of calls.now (map plain v.items)) (state reader.new)) }
{
    let mut outcomes = Vec::new(heap);
    for call in calls {
        let outcome = apply(heap, reader, call)?;
        outcomes.push(outcome)?;
    }
    Ok(outcomes)
}

// What each of the calls comes to, made in order on a new reader of the system that watches these numbers.
pub fn replay<L: LineSystem + Drop>(
    heap: Global,
    system: L,
    watch: &[u8],
    calls: &[Call<'_>],
) -> Result<Vec<Outcome>, ReplayError>
    ensures refused_just_when_due { Refuses (watch_fault watch.now) result }
    ensures each_call_has_its_outcome { IfOk result (λ v. Alike calls.now v.items) }
    ensures each_answer_and_tray_byte_follows_from_the_calls { IfOk result (λ v. map plain v.items ≡ run (setting_of (L.LineSystem.depth system) (L.LineSystem.found system) watch.now) Fresh calls.now) }
    ensures keeps_the_promise { IfOk result (λ v. WholePromise (setting_of (L.LineSystem.depth system) (L.LineSystem.found system) watch.now) (L.LineSystem.draws system) (L.LineSystem.drawn system) (L.LineSystem.tolerates system) (L.LineSystem.carries system) (past_of calls.now (map plain v.items))) }
{
    let mut reader = Reader::new(system, watch)?;
    Ok(apply_all(heap, &mut reader, calls)?)
}

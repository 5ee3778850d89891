// The reader that is measured, and its line system.
ghost use Rattle.std.specs.Prelude.{◌≡◌, [], ◌∷◌, Ok, Err};
ghost use Rattle.gather.specs.Model.{watching};
ghost use Rattle.runs.specs.Reaching.{new};
ghost use Rattle.reader.specs.Calls.{state};

use line::depth::Depth;
use reader::Reader;
use refusal::Refusal;
use twox::one_two::{OneElseTwo, one_else_two};

// The numbers that the reader watches.
const WATCHED: [u8; 3] = [1, 2, 3];

// A new reader of 1X, else 2X, which is never refused.
pub(crate) fn new_reader(depth: Depth) -> Result<Reader<OneElseTwo>, Refusal>
    ensures { elim result [ Ok reader ↦ (reader.system.first.levels.depth ≡ depth) × (reader.system.second.depth ≡ depth) × (watching reader.memory.table ≡ 1 ∷ 2 ∷ 3 ∷ []) × (state reader ≡ new) | Err e ↦ ⊥ ] }
{
    Reader::new(one_else_two(depth), &WATCHED)
}

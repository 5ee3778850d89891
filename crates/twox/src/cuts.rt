// The levels of 2X and the cuts between them.
ghost use Rattle.std.specs.Prelude.{◌≡◌, ℕ, ◌+◌, ◌*◌, ◌<◌, length, slice_index};
ghost use Rattle.line.specs.Depths.{unit_of};
ghost use Rattle.line.specs.Symbols.{weight, level_at, value_of};
ghost use Rattle.twox.specs.Levels.{two_levels};
ghost use Rattle.twox.specs.TwoX.{cuts_of, runs_as, two_run, two_cuts};

use line::depth::Depth;
use line::reading::Cuts;
use line::symbols::{level, value, weight};

// The values of EB 52.
const RUN_IN_VALUES: [usize; 8] = [3, 2, 2, 3, 1, 1, 0, 2];

// The levels of the values 0 to 3: the first is 16 units, and each next one lies 73 units higher.
pub fn levels(depth: Depth) -> [u16; 4]
    ensures answer { result ≡ two_levels depth }
    ensures even { (v : ℕ) → v < 4 → slice_index result v ≡ (16 + 73 * v) * unit_of depth }
{
    match depth {
        Depth::Eight => [16, 89, 162, 235],
        Depth::Ten => [64, 356, 648, 940],
        Depth::Twelve => [256, 1424, 2592, 3760],
    }
}

// The cuts between the levels, by the weight of a symbol.
fn cuts_between(depth: Depth, count: usize) -> [u32; 3]
    ensures { result ≡ cuts_of (weight count) (two_levels depth) }
{
    let w = weight(count);
    let [a, b, c, d] = levels(depth);
    [
        w * (a as u32 + b as u32),
        w * (b as u32 + c as u32),
        w * (c as u32 + d as u32),
    ]
}

// Whether the first eight values are those of the run-in.
fn run_in(line: &[u16], cuts: &[u32; 3]) -> bool
    ensures { result ≡ runs_as (λ k. value_of cuts.now (2 * level_at line.now k)) 0 two_run }
{
    RUN_IN_VALUES
        .iter()
        .enumerate()
        .all(|(k, v)| value(2 * level(line, k as u8), cuts) == *v)
}

// The cuts between the four values, where the run-in is found.
pub fn cuts(depth: Depth, line: &[u16]) -> Option<Cuts>
    ensures answer { result ≡ two_cuts (two_levels depth) (weight (length line.now)) (level_at line.now) }
{
    let cuts = cuts_between(depth, line.len());
    run_in(line, &cuts).then_some(Cuts::Three(cuts))
}

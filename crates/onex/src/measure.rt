// The measurement of the run-in.
ghost use Rattle.std.specs.Prelude.{◌≡◌, ◌*◌, ◌≤◌, length};
ghost use Rattle.line.specs.Depths.{unit_of};
ghost use Rattle.line.specs.Symbols.{weight, level_at};
ghost use Rattle.onex.specs.OneX.{largest, smallest, measured, one_cuts};

use line::depth::Depth;
use line::reading::Cuts;
use line::symbols::{level, weight};

// The places of the zeros of EB 52, and of its ones.
const ZEROS: [u8; 7] = [3, 5, 8, 10, 12, 13, 15];

const ONES: [u8; 9] = [0, 1, 2, 4, 6, 7, 9, 11, 14];

// The least distance between the levels of a run-in that is found, in half units of a symbol's weight.
const LEAST_GAP: u32 = 16;

// The largest level at some places, and the smallest there and at place 0.
fn largest(line: &[u16], places: &[u8]) -> u32
    ensures { result ≡ largest (level_at line.now) 0 places.now }
{
    places.iter().fold(0, |most, k| most.max(level(line, *k)))
}

fn smallest(line: &[u16], places: &[u8]) -> u32
    ensures { result ≡ smallest (level_at line.now) (level_at line.now 0) places.now }
{
    let first = level(line, 0);
    places
        .iter()
        .fold(first, |least, k| least.min(level(line, *k)))
}

// What is measured on a run-in: the largest level at its zeros, and the smallest at its ones.
struct Measured {
    zero: u32,
    one: u32,
    ghost small: { (zero ≤ 40 * 65535) × (one ≤ 40 * 65535) },
}

impl Measured {
    fn of(line: &[u16]) -> Measured
        ensures { (result.zero, result.one) ≡ measured (level_at line.now) }
    {
        Measured {
            zero: largest(line, &ZEROS),
            one: smallest(line, &ONES),
        }
    }
}

// The cut between 0 and 1, where the run-in is found.
pub fn cuts(depth: Depth, line: &[u16]) -> Option<Cuts>
    ensures answer { result ≡ one_cuts (unit_of depth) (weight (length line.now)) (level_at line.now) }
{
    let Measured { zero, one } = Measured::of(line);
    let least = weight(line.len()) * (LEAST_GAP * depth.unit() as u32);
    (least < 2 * one.saturating_sub(zero)).then_some(Cuts::One(zero + one))
}

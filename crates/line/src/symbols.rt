// The symbols of a line.
ghost use Rattle.std.specs.Prelude.{◌≡◌, ◌*◌, ◌≤◌, length, sum};
ghost use Rattle.line.specs.Symbols.{weight, level_at, value_of};

use crate::checks::{SYMBOLS, good_count};

// What stands for the number of samples in a symbol; 0 where no line has so many samples.
// No Option: levels and cuts are multiples of it, so 0 needs no case of its own.
pub fn weight(count: usize) -> u32
    ensures answer { result ≡ weight count }
    ensures small { result ≤ 40 }
{
    if good_count(count) {
        (count / SYMBOLS) as u32
    } else {
        0
    }
}

// The sum of the samples of one symbol.
pub(crate) fn total(samples: &[u16]) -> u32
    requires { length samples.now ≤ 40 }
    ensures sum { result ≡ sum samples.now }
    ensures small { result ≤ 40 * 65535 }
{
    samples.iter().map(|sample| u32::from(*sample)).sum()
}

// The level of symbol k; 0 past the last symbol.
pub fn level(line: &[u16], k: u8) -> u32
    ensures answer { result ≡ level_at line.now k }
    ensures small { result ≤ 40 * 65535 }
{
    let width = weight(line.len()) as usize;
    let from = k as usize * width;
    match line.get(from..from + width) {
        Some(samples) => total(samples),
        None => 0,
    }
}

// The value of a symbol: how many cuts its doubled level reaches.
pub fn value(twice: u32, cuts: &[u32]) -> usize
    ensures answer { result ≡ value_of cuts.now twice }
    ensures few { result ≤ length cuts.now }
{
    // counted by hand: `filter` and `count` are compiled with a branch, which reads 2X 1.1 to 1.6 times slower
    let mut n: usize = 0;
    for cut in cuts {
        if *cut <= twice {
            n += 1;
        }
    }
    n
}

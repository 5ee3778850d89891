// What is tested of a line and a payload before they are drawn or read.
ghost use Rattle.std.specs.Prelude.{◌≡◌, max, length, fold};
ghost use Rattle.line.specs.Lines.{good_count, fitting, line_fault, begins, read_test};

use crate::depth::Depth;
use refusal::Refusal;

// Symbols in a line, and the most samples that one has.
pub const SYMBOLS: usize = 240;

pub const MOST_SAMPLES: usize = 3840;

// Samples lie below this many units.
const SAMPLE_LIMIT: u16 = 256;

// What a payload begins with, and the room that a reader asks for one.
pub const RUN_IN: [u8; 2] = [0xeb, 0x52];

pub const PAYLOAD_ROOM: usize = 60;

// Whether a line may have so many samples.
pub(crate) fn good_count(count: usize) -> bool
    ensures answer { result ≡ good_count count }
{
    count % SYMBOLS == 0 && (SYMBOLS <= count && count <= MOST_SAMPLES)
}

// Whether a payload begins EB 52.
pub(crate) fn begins(payload: &[u8]) -> bool
    ensures answer { result ≡ begins payload.now }
{
    match payload {
        [a, b, ..] => *a == RUN_IN[0] && *b == RUN_IN[1],
        _ => false,
    }
}

// The largest sample, or 0. It has no early way out, so that it is compiled to vector code.
fn largest_sample(line: &[u16]) -> u16
    ensures { result ≡ fold (λ m x. max m x) 0 line.now }
{
    line.iter().fold(0, |most, sample| most.max(*sample))
}

// How many samples from the first on are small enough for the depth.
// Depth and samples stay two arguments: a line system holds its depth, and is lent samples alone.
fn fitting(depth: Depth, line: &[u16]) -> usize
    ensures { result ≡ fitting depth line.now }
{
    let limit = SAMPLE_LIMIT * depth.unit();
    line.iter().take_while(|sample| **sample < limit).count()
}

// Why a line is refused, if it is: an Option, since what line systems promise is said of the fault alone.
pub fn line_fault(depth: Depth, line: &[u16]) -> Option<Refusal>
    ensures answer { result ≡ line_fault depth line.now }
{
    if !good_count(line.len()) {
        return Some(Refusal::SampleCount(line.len()));
    }
    if largest_sample(line) < SAMPLE_LIMIT * depth.unit() {
        return None;
    }
    let place = fitting(depth, line);
    (place < line.len()).then_some(Refusal::SampleSize(place))
}

// Whether a line can be read into a buffer of so many bytes.
pub(crate) fn read_test(depth: Depth, line: &[u16], room: usize) -> Result<(), Refusal>
    ensures answer { result ≡ read_test (line_fault depth line.now) room }
{
    match line_fault(depth, line) {
        Some(fault) => Err(fault),
        None if room < PAYLOAD_ROOM => Err(Refusal::OutputLength(room)),
        None => Ok(()),
    }
}

// Reading a line by 1X, else 2X, with the tests of the line made once for both.
ghost use Rattle.std.specs.Prelude.{◌≡◌, length};
ghost use Rattle.line.specs.Depths.{depth_of};
ghost use Rattle.line.specs.Lines.{line_fault, read_answer, read_buffer};
ghost use Rattle.line.specs.Scales.{found_by};
ghost use Rattle.line.specs.Symbols.{level_at};
ghost use Rattle.capture.specs.Readings.{samples_of, one_two_found, bytes_fault, bytes_answer, bytes_found};

use crate::samples::gather;
use line::checks::MOST_SAMPLES;
use line::depth::Depth;
use line::reading::{Cuts, read_by};
use refusal::Refusal;

// The cuts of 1X where it finds its run-in, else those of 2X.
fn cuts(depth: Depth, line: &[u16]) -> Option<Cuts>
    ensures { found_by result (level_at line.now) ≡ one_two_found depth line.now }
{
    onex::measure::cuts(depth, line).or_else(|| twox::cuts::cuts(depth, line))
}

// Reads samples. Depth, samples and payload stay three arguments: they come so from C.
fn read_samples(depth: Depth, line: &[u16], payload: &mut [u8]) -> Result<Option<usize>, Refusal>
    ensures answer { result ≡ read_answer (line_fault depth line.now) (one_two_found depth line.now) (length payload.old) }
    ensures payload { payload.new ≡ read_buffer result (one_two_found depth line.now) payload.old }
{
    read_by(depth, line, cuts(depth, line), payload)
}

// Reads bytes, two to a sample.
fn read_bytes(depth: Depth, bytes: &[u8], payload: &mut [u8]) -> Result<Option<usize>, Refusal>
    ensures answer { result ≡ read_answer (bytes_fault depth bytes.now) (one_two_found depth (samples_of bytes.now)) (length payload.old) }
    ensures payload { payload.new ≡ read_buffer result (one_two_found depth (samples_of bytes.now)) payload.old }
{
    let count = bytes.len() / 2;
    if bytes.len() % 2 != 0 || count > MOST_SAMPLES {
        return Err(Refusal::SampleCount(count));
    }
    // in fixed memory: nothing here allocates
    let mut samples = [0u16; MOST_SAMPLES];
    let line = &mut samples[..count];
    gather(bytes, line);
    read_samples(depth, line, payload)
}

// Reads bytes at a stated depth, which is tested before all else.
pub(crate) fn read(bits: u32, bytes: &[u8], payload: &mut [u8]) -> Result<Option<usize>, Refusal>
    ensures answer { result ≡ bytes_answer (depth_of bits) bytes.now (length payload.old) }
    ensures payload { payload.new ≡ read_buffer result (bytes_found (depth_of bits) bytes.now) payload.old }
{
    let depth = Depth::try_from(bits)?;
    read_bytes(depth, bytes, payload)
}

// A bad cable box: what it does to the frames of the tape on their way to the reader.
use crate::setting::DEPTH;
use std::alloc::{AllocError, Global};
use std::fmt;

// What happens to a frame.
#[derive(Clone, Copy)]
pub enum Fate {
    // it comes as it was drawn
    Kept,
    // it does not come
    Lost,
    // it comes once more, with its number
    Repeated,
    // it comes once more, after a later one
    Late,
    // it comes black
    Blanked,
    // most of it comes brighter by so much
    Brighter(u16),
    // some of its symbols come black: from this one on, so many
    Dropout(usize, usize),
    // its last sample lacks
    Short,
    // a sample is too large
    Glitch,
    // no frame comes, and the reader is restarted
    Restart,
}

// The frames of the tape on their way, in order.
pub const STEPS: [(u64, Fate); 28] = [
    (1000, Fate::Kept),
    (1001, Fate::Brighter(35)),
    (1002, Fate::Kept),
    (1003, Fate::Kept),
    (1003, Fate::Repeated),
    (1004, Fate::Kept),
    (1005, Fate::Blanked),
    (1006, Fate::Kept),
    (1007, Fate::Lost),
    (1008, Fate::Kept),
    (1009, Fate::Kept),
    (1008, Fate::Late),
    (1010, Fate::Short),
    (1011, Fate::Kept),
    (1012, Fate::Kept),
    (1013, Fate::Restart),
    (1013, Fate::Kept),
    (1014, Fate::Kept),
    (1015, Fate::Dropout(80, 8)),
    (1016, Fate::Brighter(145)),
    (1017, Fate::Dropout(152, 4)),
    (1018, Fate::Kept),
    (1019, Fate::Glitch),
    (1019, Fate::Repeated),
    (1020, Fate::Kept),
    (1021, Fate::Kept),
    (1022, Fate::Brighter(146)),
    (1023, Fate::Kept),
];

// Samples in front of which nothing gets brighter: the run-in, at least, is spared.
const SPARED: usize = 320;

// Samples of a symbol.
const WIDTH: usize = 8;

// Moves the samples up, none above the most.
pub fn brighten(line: &mut [u16], e: u16, most: u16) {
    for sample in line.iter_mut().skip(SPARED) {
        *sample = sample.saturating_add(e).min(most);
    }
}

// Blackens so many samples from a place on.
fn blacken(line: &mut [u16], from: usize, count: usize) {
    for sample in line.iter_mut().skip(from).take(count) {
        *sample = 0;
    }
}

// The line of a frame as it comes.
pub fn pass(heap: Global, line: &[u16], fate: Fate) -> Result<Vec<u16>, AllocError> {
    let mut out = line.to_vec(heap)?;
    let most = 256 * DEPTH.unit() - 1;
    match fate {
        Fate::Brighter(e) => brighten(&mut out, e, most),
        Fate::Blanked => blacken(&mut out, 0, line.len()),
        Fate::Dropout(symbol, count) => blacken(
            &mut out,
            symbol.saturating_mul(WIDTH),
            count.saturating_mul(WIDTH),
        ),
        Fate::Short => {
            let _ = out.pop();
        }
        Fate::Glitch => {
            if let Some(sample) = out.last_mut() {
                *sample = most + 1;
            }
        }
        Fate::Kept | Fate::Lost | Fate::Repeated | Fate::Late | Fate::Restart => {}
    }
    Ok(out)
}

impl fmt::Display for Fate {
    fn fmt<W: fmt::Write>(&self, f: &mut fmt::Formatter<W>) -> fmt::Result {
        match self {
            Fate::Kept => f.write_str("kept"),
            Fate::Lost => f.write_str("lost"),
            Fate::Repeated => f.write_str("repeated"),
            Fate::Late => f.write_str("late"),
            Fate::Blanked => f.write_str("blanked"),
            Fate::Brighter(e) => write!(f, "brighter by {e}"),
            Fate::Dropout(symbol, count) => {
                write!(f, "dropout of {count} symbols from {symbol}")
            }
            Fate::Short => f.write_str("short of a sample"),
            Fate::Glitch => f.write_str("a sample too large"),
            Fate::Restart => f.write_str("before it comes"),
        }
    }
}

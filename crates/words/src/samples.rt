// Samples in runs, each a value and how often it stands.
use crate::lists::is_nothing;
use crate::pieces::Pieces;
use crate::stop::Stop;
use crate::words::{COUNT_MOST, Words};
use std::alloc::Global;
use std::fmt;

// One run, `V` or `V*COUNT`.
fn read_run(word: &[u8]) -> Result<(u16, usize), Stop> {
    let mut fields = Words::between(word, b'*');
    let value = fields.value()?;
    let count = fields.count_or(1)?;
    fields.end()?;
    Ok((value, count))
}

// The samples that a word writes.
pub fn read_samples(heap: Global, word: &[u8]) -> Result<Vec<u16>, Stop> {
    let mut line = Vec::new(heap);
    if is_nothing(word) {
        return Ok(line);
    }
    // run by run, so that a word takes no more memory than its samples, and ends where they are too many
    for run in Pieces::new(word, b',') {
        let (value, count) = read_run(run)?;
        let length = line.len().saturating_add(count);
        if length as u64 > COUNT_MOST {
            return Err(Stop::What);
        }
        line.resize(length, value)?;
    }
    Ok(line)
}

// Samples in the longest runs.
#[derive(Clone, Copy)]
pub struct Runs<'a>(pub &'a [u16]);

impl fmt::Display for Runs<'_> {
    fn fmt<W: fmt::Write>(&self, f: &mut fmt::Formatter<W>) -> fmt::Result {
        for (i, run) in self.0.chunk_by(|a, b| a == b).enumerate() {
            if i > 0 {
                f.write_str(",")?;
            }
            match run {
                [] => {}
                [sample] => write!(f, "{sample}")?,
                [sample, ..] => write!(f, "{sample}*{}", run.len())?,
            }
        }
        Ok(())
    }
}

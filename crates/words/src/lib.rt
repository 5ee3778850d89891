// The words of test cases: numbers, hexadecimal bytes, samples and lists, parsed from bytes and printed (docs/VECTORS.md).
// It knows nothing of what a case asks.
#![tactic(auto)]

mod decimal;
mod hexadecimal;
mod lists;
mod pieces;
mod samples;
mod stop;
mod words;

pub use decimal::{read_decimal, read_number};
pub use hexadecimal::{Hex, read_hex};
pub use lists::{read_numbers, read_parts};
pub use pieces::Pieces;
pub use samples::{Runs, read_samples};
pub use stop::Stop;
pub use words::Words;

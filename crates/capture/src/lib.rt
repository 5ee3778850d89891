// The reading of one line for a capture program in C: by 1X, else 2X, on numbers and bytes. It allocates nothing and knows
// nothing of what a payload holds. include/rueladle.h declares the call, docs/CAPTURE.md describes it.
#![tactic(auto)]

pub mod answer;
pub mod call;
mod reading;
mod samples;

// Replaying: a list of calls made on one new reader, and what each came to, as a tool does it with stored lines. The promise over
// whole runs stands on `replay` itself. The lists are owned here, so want of memory is an error of its own.
#![tactic(auto)]

mod call;
mod run;
mod step;

pub use call::{Call, Outcome, ReplayError};
pub use run::replay;

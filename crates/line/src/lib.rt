// The luma line that a payload is drawn into: its depth, the tests of its sample count and sample size, its 240 symbols, and
// the drawing and reading of bytes by levels and cuts. It knows nothing of where levels and cuts come from: that is what a
// line system says.
#![tactic(auto)]

pub mod checks;
pub mod depth;
pub mod drawing;
pub mod reading;
pub mod symbols;

// For measuring only: one line offered to a new reader over and over, as one call from C, so that the bench can time an offer
// with its tray. No program needs it.
#![tactic(auto)]

pub mod answer;
pub mod call;
mod run;
mod systems;

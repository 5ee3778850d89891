// 1X: two levels, one bit to a symbol, payloads of 30 bytes. A reader of 1X measures the levels on the run-in itself.
#![tactic(auto)]

pub mod levels;
pub mod making;
pub mod measure;
pub mod one_x;
pub mod tolerance;

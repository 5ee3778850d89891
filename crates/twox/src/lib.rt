// 2X: four levels fixed by the depth, two bits to a symbol, payloads of 60 bytes; and 1X, else 2X.
#![tactic(auto)]

pub mod cuts;
pub mod making;
pub mod one_two;
pub mod order;
pub mod two_x;

// What a line system is, and two systems as one: the first, else the second. Nothing here knows how a system reads or draws:
// all is proved from the laws that every system shows.
#![tactic(auto)]

pub mod first_else;
pub mod joins;
pub mod round_trip;
pub mod system;
pub mod yields;

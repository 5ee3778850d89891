// Gathering: the slots of the watched numbers, which keep the parts of messages until all are there.
// This crate knows nothing of lines, payloads, trays or of what the messages say, and allocates nothing.
#![tactic(auto)]

mod arrive;
mod find;
mod fitting;
mod held;
mod join;
mod joined;
mod keep;
mod slot;
mod table;
mod take;
mod watch;

pub use slot::Arrival;
pub use table::Table;

#![tactic(auto)]

// Tests of the reader on worked calls, apart from the crate that they test, so that it is proved once.
#[cfg(test)]
mod gathers;
#[cfg(test)]
mod lines;
#[cfg(test)]
mod refuses;
#[cfg(test)]
mod trays;

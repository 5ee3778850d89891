#![tactic(auto)]

// Tests of lines and line systems on worked values, apart from the crates that they test, so that those are proved once.
#[cfg(test)]
mod clones;
#[cfg(test)]
mod drawn;
#[cfg(test)]
mod edges;
#[cfg(test)]
mod spare;
#[cfg(test)]
mod sums;
#[cfg(test)]
mod trips;

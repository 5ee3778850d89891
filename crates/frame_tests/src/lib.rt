#![tactic(auto)]

// Tests of frames on worked values, apart from the crate that they test, so that it is proved once.
#[cfg(test)]
mod drawing;
#[cfg(test)]
mod groups;

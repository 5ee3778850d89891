#![tactic(auto)]

// Tests of the tray on worked bytes, apart from the crate that they test, so that it is proved once.
#[cfg(test)]
mod reading;
#[cfg(test)]
mod writing;

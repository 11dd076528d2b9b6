//! Tests of devices, sets of them, files of replies, and records. They stand apart from the crates
//! that they test, so that those are proved once.
#![tactic(auto)]

#[cfg(test)]
mod device_tests;
#[cfg(test)]
mod record_tests;
#[cfg(test)]
mod reply_tests;
#[cfg(test)]
mod set_tests;

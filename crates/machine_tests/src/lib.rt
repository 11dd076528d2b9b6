//! Tests of single instructions, of the start of instances and of their invocations. They stand
//! apart from the crates that they test, so that those are proved once.
#![tactic(auto)]

#[cfg(test)]
mod asking;
#[cfg(test)]
mod basic_tests;
#[cfg(test)]
mod instance_tests;
#[cfg(test)]
mod modules;
#[cfg(test)]
mod resume_tests;
#[cfg(test)]
mod running;
#[cfg(test)]
mod start_tests;
#[cfg(test)]
mod watch_tests;

//! Tests of what the debugger stands on. They stand apart from the crates that they test, so that
//! those are proved once.
#![tactic(auto)]

#[cfg(test)]
mod cases;
#[cfg(test)]
mod command_tests;
#[cfg(test)]
mod listing_tests;
#[cfg(test)]
mod match_tests;
#[cfg(test)]
mod session_tests;
#[cfg(test)]
mod sources;
#[cfg(test)]
mod stack_tests;
#[cfg(test)]
mod word_tests;

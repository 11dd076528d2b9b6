//! Tests of the code that writes rewritten bodies. They stand apart from the crates that they test,
//! so that those are proved once.
#![tactic(auto)]

#[cfg(test)]
mod code_tests;
#[cfg(test)]
mod contexts;
#[cfg(test)]
mod exit_tests;
#[cfg(test)]
mod guard_tests;
#[cfg(test)]
mod modules;
#[cfg(test)]
mod number_tests;
#[cfg(test)]
mod piece_tests;
#[cfg(test)]
mod plan_tests;
#[cfg(test)]
mod walk_tests;
#[cfg(test)]
mod weight_tests;

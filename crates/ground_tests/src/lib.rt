//! Tests of texts, files, integers and memory. They stand apart from the crates that they test, so
//! that those are proved once.
#![tactic(auto)]

#[cfg(test)]
mod file_tests;
#[cfg(test)]
mod integer_tests;
#[cfg(test)]
mod memory_tests;
#[cfg(test)]
mod plain;
#[cfg(test)]
mod text_tests;

//! Tests of the formats of instructions, modules and dumps, and of validation. They stand apart
//! from the crates that they test, so that those are proved once.
#![tactic(auto)]

#[cfg(test)]
mod byte_tests;
#[cfg(test)]
mod dump_tests;
#[cfg(test)]
mod instruction_tests;
#[cfg(test)]
mod leb_tests;
#[cfg(test)]
mod module_tests;
#[cfg(test)]
mod reader_tests;
#[cfg(test)]
mod validation_tests;

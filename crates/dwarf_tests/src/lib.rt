//! Tests of the readers of DWARF. They stand apart from the crates that they test, so that those
//! are proved once.
#![tactic(auto)]

#[cfg(test)]
mod abbrev_tests;
#[cfg(test)]
mod entry5_tests;
#[cfg(test)]
mod expression_tests;
#[cfg(test)]
mod form_tests;
#[cfg(test)]
mod frames;
#[cfg(test)]
mod item_tests;
#[cfg(test)]
mod line5_tests;
#[cfg(test)]
mod line_tests;
#[cfg(test)]
mod list5_tests;
#[cfg(test)]
mod list_tests;
#[cfg(test)]
mod object_tests;
#[cfg(test)]
mod path_tests;
#[cfg(test)]
mod reading;
#[cfg(test)]
mod recorded;
#[cfg(test)]
mod samples;
#[cfg(test)]
mod scope_tests;
#[cfg(test)]
mod shown_tests;
#[cfg(test)]
mod step_tests;
#[cfg(test)]
mod text_tests;
#[cfg(test)]
mod type_tests;
#[cfg(test)]
mod unit5_tests;
#[cfg(test)]
mod unit_tests;
#[cfg(test)]
mod value_tests;
#[cfg(test)]
mod variant_tests;

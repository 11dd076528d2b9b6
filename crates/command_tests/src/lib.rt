//! Words, and the commands `check` and `show`, tested over files in memory. The tests stand apart
//! from `pm_cli`, so that it is not proved a second time with them.
#![tactic(auto)]

#[cfg(test)]
mod check_tests;
#[cfg(test)]
mod list_tests;
#[cfg(test)]
mod option_tests;
#[cfg(test)]
mod output_tests;
#[cfg(test)]
mod reading;
#[cfg(test)]
mod run_word_tests;
#[cfg(test)]
mod show_tests;
#[cfg(test)]
mod trial;
#[cfg(test)]
mod word_tests;

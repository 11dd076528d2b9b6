//! The commands `instrument`, `run --collect`, `selftest`, `replay` and `cover`, tested over files
//! in memory. The tests stand apart from `pm_cli`, so that it is not proved a second time with
//! them.
#![tactic(auto)]

#[cfg(test)]
mod collected_tests;
#[cfg(test)]
mod cover_tests;
#[cfg(test)]
mod handed_tests;
#[cfg(test)]
mod module_tests;
#[cfg(test)]
mod recorded_tests;
#[cfg(test)]
mod replay_tests;
#[cfg(test)]
mod selftest_tests;
#[cfg(test)]
mod shown_tests;
#[cfg(test)]
mod trial;
#[cfg(test)]
mod written_tests;

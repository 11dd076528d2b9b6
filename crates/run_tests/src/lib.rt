//! The command `run`, tested over files in memory and devices. The tests stand apart from `pm_cli`,
//! so that it is not proved a second time with them.
#![tactic(auto)]

#[cfg(test)]
mod device_tests;
#[cfg(test)]
mod devices;
#[cfg(test)]
mod file_tests;
#[cfg(test)]
mod invocation_tests;
#[cfg(test)]
mod record_tests;
#[cfg(test)]
mod trial;

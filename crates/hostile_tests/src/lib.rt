//! Broken input, and faults at each call of the files and of the output, tested over files in
//! memory. The tests stand apart from `pm_cli`, so that it is not proved a second time with them.
#![tactic(auto)]

#[cfg(test)]
mod device_tests;
#[cfg(test)]
mod fault_tests;
#[cfg(test)]
mod table_tests;
#[cfg(test)]
mod trial;

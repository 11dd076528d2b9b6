//! Dumps, tested byte by byte. The tests stand apart from `dump_write` and `trap_image`, so that
//! neither is proved a second time with them.
#![tactic(auto)]

#[cfg(test)]
mod collected_tests;
#[cfg(test)]
mod runs;
#[cfg(test)]
mod trap;
#[cfg(test)]
mod trap_tests;
#[cfg(test)]
mod written_tests;

//! Tests of replays, and of steps of runs by source lines.
#![tactic(auto)]

#[cfg(test)]
mod step_tests;
#[cfg(test)]
mod tests;
#[cfg(test)]
mod text_tests;
#[cfg(test)]
mod word_tests;

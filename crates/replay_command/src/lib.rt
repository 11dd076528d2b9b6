//! The command `replay`: its words, and the texts of moves between the steps of a recorded run.
#![tactic(auto)]

mod answering;
mod asking;
mod command;
mod looking;
mod move_reading;
mod moves;
mod moving;
mod reading;
mod texts;

pub use asking::{ReplayWords, replay_words};
pub use command::replay_file;
pub use move_reading::read_move;
pub use moves::Move;

//! The command line of the program.
#![tactic(auto)]

mod checking;
mod command;
mod dump_text;
mod laws;
mod showing;
mod top;
mod words;

pub use commands::{Status, WordsFault};
pub use laws::one_answer;
pub use top::post_mortem;
pub use words::{Command, parse_words};

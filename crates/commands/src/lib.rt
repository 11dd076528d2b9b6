//! What commands have in common: words and options, status and text, files that are read whole,
//! modules that are loaded, and refused dumps.
#![tactic(auto)]

mod fault;
mod given;
mod input;
mod lines;
mod loading;
mod outcome;
mod reading;
mod refused;
mod status;
mod values;

pub use fault::WordsFault;
pub use given::Given;
pub use input::read_input;
pub use lines::{kind_name, numbered, push_kind, push_result};
pub use loading::load;
pub use outcome::{Outcome, about_file, over_limit, plain, push_number};
pub use reading::{Kind, Options, Reading, read_words};
pub use refused::refused_dump;
pub use status::Status;
pub use values::push_value;

//! A session of the debugger: commands on a module and a dump of it, and the texts that they print.
#![tactic(auto)]

mod answers;
mod asked;
mod command;
mod counts;
mod examined;
mod globals;
mod known_types;
mod listing;
mod memory;
mod paths;
mod reading;
mod session;
mod subject;
mod texts;
mod variables;
mod view;

pub use command::Command;
pub use debug_frames::Information;
pub use examined::push_examined;
pub use globals::recorded_globals;
pub use listing::push_listing;
pub use memory::recorded_memory;
pub use paths::push_path;
pub use reading::{first_word, read_command, second_word};
pub use session::Session;
pub use subject::Subject;
pub use texts::{
    push_backtrace, push_frame_at, push_globals, push_locals, push_memory, push_no_frame,
    push_operands, push_unread,
};
pub use variables::push_variables;

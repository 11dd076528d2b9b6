//! Steps of a machine over flat code (Core 4.4), of its frames, its globals and its memory, and
//! runs with fuel up to a call of an import.
#![tactic(auto)]

mod blocks;
mod branches;
mod calls;
mod entry;
mod indirect;
mod layout;
mod machine;
mod returns;
mod runs;
mod steps;
mod tally;
mod watch;

pub use calls::{call, call_under_index, code_at};
pub use entry::{begin, leave_frames};
pub use layout::{CallFrame, CallStack, Control, Stepped};
pub use machine::{ImportCall, Machine, Outcome};
pub use returns::leave;
pub use runs::{Ended, run_watched};
pub use tally::Tally;
pub use watch::{Position, Unwatched, Watch};

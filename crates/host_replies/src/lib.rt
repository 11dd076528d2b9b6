//! Files of replies: what the imports of a module answer in a run, line by line, and the record of
//! a run in that form.
#![tactic(auto)]

mod laws;
mod parts;
mod record;
mod replies;
mod words;

pub use record::{push_record, push_reply};
pub use replies::{Replies, ReplyFault, read_replies};
pub use words::typed;

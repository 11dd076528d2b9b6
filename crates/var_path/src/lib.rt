//! Paths, which name a variable or a part of it: `*(*p->q).r[7]`.
#![tactic(auto)]

mod one_step;
mod parse;
mod path;
mod span;

pub use parse::parse_path;
pub use path::{Path, Step, Steps};

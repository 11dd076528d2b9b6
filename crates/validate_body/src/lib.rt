//! Whether the body of a function has its type (Core 3.4.1), by the validation algorithm and its
//! stack of operand types under control frames (Core, appendix "Validation Algorithm").
#![tactic(auto)]

mod body;
mod locals;
mod marks;
mod ops;
mod shape;
mod stack;
mod step;

pub use body::{BodyFault, check_body};
pub use marks::{Mark, Marks};
pub use stack::{Control, StackFault, TypeStack};

//! The decoder of modules (Core 5): the sections that bytes spell, judged as a module within the
//! limits, and the names of functions.
#![tactic(auto)]

mod bodies;
mod expression;
mod fault;
mod form;
mod input;
mod limits;
mod module;
mod name_section;
mod sections;

pub use fault::DecodeFault;
pub use input::Input;
pub use module::decode;
pub use name_section::{Names, function_names};
pub use sections::spelled;

//! Rewrites a module so that it hands over its dump at each trap, or tells why it is not rewritten.
#![tactic(auto)]

mod accesses;
mod bodies;
mod copies;
mod declarations;
mod entries;
mod exports;
mod functions;
mod module;
mod refusal;
mod table;
mod whole;

pub use module::assemble;
pub use refusal::{InstrFault, admitted};
pub use whole::instrument;

//! The shortest binary encoding of a module (Core 5.5): no custom sections, no empty sections, and
//! every number in its shortest spelling.
#![tactic(auto)]

mod entries;
mod expression;
mod item;
mod module;
mod sections;

pub use module::encode;

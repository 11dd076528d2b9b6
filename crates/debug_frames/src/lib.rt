//! What a module says of its source, and the lines that show frames by it.
#![tactic(auto)]

mod address;
mod files;
mod frames;
mod held;
mod information;
mod places;
mod programs;
mod rows;
mod sections;
mod stored;
mod symbolizer;
mod unreadable;

pub use address::address_of;
pub use files::{Path, push_file};
pub use frames::push_frame;
pub use held::Held;
pub use information::Information;
pub use programs::{Program, Programs};
pub use rows::RowPlace;
pub use stored::Stored;
pub use symbolizer::Symbolizer;
pub use unreadable::push_unreadable;

//! Entries of `.debug_info` where they stand: their attributes by name, what is in them, and the
//! names and types that stand in other entries.
#![tactic(auto)]

mod classes;
pub mod names;
mod origins;
mod pick;
mod search;
mod standing;
pub mod tags;
mod values;

pub use classes::as_natural;
pub use origins::{LONGEST_CHAIN, name_of, name_or_empty, type_entry};
pub use pick::{Pick, first_picked, push_picked};
pub use search::standing_at;
pub use standing::{Standing, is_child};
pub use values::{address, attribute, block, natural, number, offset, reference};

//! Numbers of a rewritten module: where functions, flag and helpers stand, what a host sees of its
//! table, names that the rewriting takes, its weight and its limits.
#![tactic(auto)]

mod collisions;
mod count;
mod indices;
pub mod laws;
pub mod limit_laws;
mod limits;
mod shown;
mod used;
mod weights;
mod wrapped;

pub use collisions::{export_collision, import_collision};
pub use indices::IndexMap;
pub use limits::{Excess, first_excess};
pub use weights::weight;

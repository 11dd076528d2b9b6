//! Writes the flat code of a rewritten body: one instruction after the other, and the pieces that
//! keep operands in added locals and hand them over.
#![tactic(auto)]

mod context;
mod derivation;
mod handing;
mod landing;
pub mod laws;
mod measuring;
mod moves;
mod offsets;
mod place;
mod trapping;
mod unwinding;
mod writer;

pub use context::{Exits, FunctionContext};
pub use derivation::Derivation;
pub use landing::{Landing, Landings, part_of};
pub use measuring::renew;
pub use moves::drops;
pub use offsets::Offsets;
pub use place::{OperandPlace, OperandPlaces, slot};
pub use trapping::can_trap;
pub use writer::CodeWriter;

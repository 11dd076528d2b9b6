//! The instructions behind which the next one is run (Core 4.4.1 to 4.4.4, and of Core 2.0 the sign
//! extensions, `memory.copy` and `memory.fill`), on the values of a frame and on what frames share.
#![tactic(auto)]

mod access;
mod answer;
mod laws;
mod memory;
mod numeric;
mod operands;
mod shared;
mod step;
mod variables;

pub use answer::{Performed, TrapKind};
pub use laws::effects_keep;
pub use shared::{Globals, Shared};
pub use step::perform;

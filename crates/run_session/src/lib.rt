//! Lists of invocations on one instance: what is told of them, what their collector calls hand
//! over, and the dump at each trap.
#![tactic(auto)]

mod dumps;
mod ending;
mod handed;
pub mod laws;
mod lines;
mod session;
mod shown;
mod told;
mod turns;

pub use ending::end_line;
pub use handed::{Handed, handed_over};
pub use session::{Counting, run_all};
pub use shown::{Shown, shown_by};

//! Writes guards: code in front of an instruction that tells whether it would trap on its operands,
//! and code that gives the kind of the trap.
#![tactic(auto)]

mod accesses;
mod choice;
mod division;
mod entries;

pub use choice::{guard, guarded, kind, needs};
pub use entries::{guard_entry, guard_unreachable};

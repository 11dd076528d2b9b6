//! Where a rewritten function keeps its operands: the locals that are added to it, and a walk over
//! its body that knows which operand is where.
#![tactic(auto)]

mod copies;
mod derived;
mod effect;
mod exposing;
mod facts;
mod flow;
mod heights;
mod labels;
pub mod laws;
mod locals;
mod noting;
mod places;
mod skip;
mod slots;
mod times;
mod trail;
mod walk;

pub use derived::derivations;
pub use effect::{result_place, takes};
pub use exposing::exposed;
pub use flow::Flow;
pub use labels::{Label, OpenBlock};
pub use noting::landings;
pub use skip::end_of_list;
pub use slots::{SlotPlan, body_at, plan};
pub use walk::{Walk, copy_of};

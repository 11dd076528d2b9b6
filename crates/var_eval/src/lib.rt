//! Variables that are visible at an address, steps from one to a part of it, and what is shown of
//! them.
#![tactic(auto)]

mod choice;
mod dead_end;
mod elements;
mod frame;
mod known_names;
mod located;
mod locations;
mod meeting;
mod members;
mod named;
mod offsets;
mod part;
mod path_shown;
mod pointers;
mod same_name;
mod shown;
mod sourced_place;
mod sources;
mod visibility;
mod walking;
mod whole;

pub use choice::chosen;
pub use frame::VariableFrame;
pub use known_names::{KnownNames, no_names};
pub use located::Located;
pub use locations::source_of;
pub use part::Part;
pub use path_shown::{value_by, value_of};
pub use shown::Shown;
pub use sources::{ExpressionPlace, KnownSource, KnownSources, no_sources};
pub use visibility::{Variable, Variables, visible};
pub use walking::walk;
pub use whole::{push_variable, value_at};

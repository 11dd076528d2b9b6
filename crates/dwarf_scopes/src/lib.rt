//! Addresses of entries: what holds an address, and the scopes and variables that are visible
//! there.
#![tactic(auto)]

mod asked;
mod bases;
mod holders;
mod insides;
mod kinds;
mod known;
mod levels;
mod listed;
mod lists;
mod ranges;
mod scopes;
mod spans;
mod steps;
mod subprograms;
mod table;
mod variables;

pub use asked::{KnownLocations, known_location_in, no_locations};
pub use kinds::ListWay;
pub use known::{is_same_way, way_number, way_of};
pub use lists::{location_in, range_in};
pub use scopes::{inlined_at, scopes_at};
pub use steps::{Range, Steps};
pub use subprograms::{Found, found_at, subprogram_at};
pub use table::SubprogramTable;
pub use variables::{variables_at, variables_from};

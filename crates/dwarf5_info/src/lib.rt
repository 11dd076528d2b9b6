//! Units of DWARF 5 (sections 7.5, 7.26 to 7.29), and their expressions without indices.
#![tactic(auto)]

mod abbreviations;
mod addresses;
mod forms;
mod indices;
mod lists;
mod read;
mod units;
mod version5;

pub use addresses::with_addresses;
pub use forms::form5;
pub use lists::{address_base, address_table, list_base, location5_at, range5_holds};
pub use read::read_units5;
pub use units::plain_expr;
pub use version5::{Five, UpToFive};

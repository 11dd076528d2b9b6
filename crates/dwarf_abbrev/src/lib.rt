//! Tables of abbreviations (DWARF 4 section 7.5.3).
#![tactic(auto)]

mod abbrev;
mod forks;
mod read;
mod shared;
mod table;

pub use abbrev::{Abbrev, Abbrevs, Pair, Pairs};
pub use read::{Row, abbrevs, read_abbrevs, read_flag, read_row};
pub use shared::SharedLists;
pub use table::{Coded, Table};

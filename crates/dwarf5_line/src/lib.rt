//! Line programs of DWARF 2 to 5.
#![tactic(auto)]

mod entries;
mod program;

pub use dwarf_bytes::ReadFault;
pub use dwarf_line::{Hull, Lines, Scans};
pub use program::{read_lines5, read_prepared_lines5, scan_lines5, scans5};

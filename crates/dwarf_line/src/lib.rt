//! Line programs of DWARF: which rows they make, and the row of an address.
#![tactic(auto)]

mod effects;
mod header;
mod hull;
mod lines;
mod matrix;
mod opcodes;
mod outline;
mod parameters;
mod place;
mod program;
mod rows;
mod scan;
mod sequences;

pub use dwarf_bytes::ReadFault;
pub use header::{Header, Tables, Versions, old_header};
pub use hull::Hull;
pub use lines::{Directories, LineFile, LineFiles, Lines, Row, Sequence};
pub use parameters::{Parameters, read_parameters};
pub use program::{read_lines, read_program};
pub use rows::Rows;
pub use scan::Scans;
pub use sequences::Sequences;

//! Reading the bytes of DWARF sections from left to right: numbers, texts, lengths and lists that
//! an end mark ends.
#![tactic(auto)]

mod bytes;
mod ended;
mod faults;
mod items;
mod names;

pub use bytes::{byte, open_counted};
pub use ended::{Ended, ended_items};
pub use faults::ReadFault;
pub use items::{number, open_long, open_unit, text};

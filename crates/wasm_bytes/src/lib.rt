//! Reading the bytes of WebAssembly's formats from left to right: places, single items, blocks and
//! vectors.
#![tactic(auto)]

mod cursor;
mod faults;
mod gather;
mod item;
mod noted;
mod reader;
mod runs;
mod sections;

pub use cursor::Cursor;
pub use faults::{ItemFault, Malformed};
pub use gather::{Gather, GatherUntilDone, gather_count, gather_to_end, gather_until_done};
pub use item::{Item, items_to_end, named_section};
pub use noted::{Noted, Noting, noted_vector};
pub use reader::Reader;
pub use runs::Run;
pub use sections::{SectionFrame, section_at};

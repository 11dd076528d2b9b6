//! Location lists and range lists of DWARF: what a list says of an address, in version 4 (DWARF 4,
//! 2.6.2 and 2.17.3) and in version 5 (DWARF 5, 2.6.2 and 2.17.3).
#![tactic(auto)]

mod address;
mod addresses;
mod contents;
mod entry;
mod kind;
mod said;
mod search;
mod version4;
mod version5;
mod version5_entry;

pub use address::read_address;
pub use addresses::AddressTable;
pub use contents::{Contents, NoContents, Span, read_span};
pub use entry::ListEntry;
pub use kind::EntryKind;
pub use said::{Said, base_behind};
pub use search::{Entries, chosen_at};
pub use version4::{location_at, location_entry, range_entry, range_holds};
pub use version5::{loclist_entry, loclist_location, rnglist_entry, rnglist_holds};

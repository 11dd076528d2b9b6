//! Units of DWARF (DWARF 4 section 7.5).
#![tactic(auto)]

mod answers;
mod attributes;
mod context;
mod entries;
mod entry;
mod form;
mod growing;
mod known;
mod marks;
mod places;
mod prepared;
mod read;
mod rows;
mod sections;
mod settle;
mod slots;
mod tables;
mod texts;
mod unit;
mod units;
mod value;
mod version;
mod version4;

pub use attributes::Attributes;
pub use context::UnitContext;
pub use entry::{AttrValue, Attribute, Entries, Entry, Unit, UnitAnswer};
pub use form::{
    Form, IndexTable, Meaning, NumberForm, Shape, Shapes, SizedForm, Slot, TextSection,
};
pub use growing::Growing;
pub use known::KnownPairs;
pub use places::EntryPlace;
pub use prepared::PreparedSections;
pub use read::{read_all, read_units};
pub use sections::{Sections, Sections5};
pub use slots::Slots;
pub use tables::Tables;
pub use unit::read_body;
pub use units::Units;
pub use version::{UnitVersion, UnitVersions};
pub use version4::{Four, form4};

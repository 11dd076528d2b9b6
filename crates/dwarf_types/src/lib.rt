//! Types of variables: what stands behind them, and their sizes (DWARF 4 chapter 5).
#![tactic(auto)]

mod array_rows;
mod arrays;
mod behind;
mod class;
mod counts;
mod entry_range;
mod enumerators;
mod kept_counts;
mod kind;
mod offsets;
mod shallow;
mod size;
mod structures;
mod type_standing;
mod typed_units;

pub use array_rows::ArrayRows;
pub use arrays::Arrays;
pub use behind::{Behind, Typed, resolved, type_at, type_of};
pub use class::{Class, class_of};
pub use counts::{has_subranges, subrange_count, subranges_behind};
pub use entry_range::{EntryRange, standing_among};
pub use enumerators::{Enumerators, number_key};
pub use kind::{Kind, kind_of};
pub use size::{size_of, type_size};
pub use structures::{MemberPositions, Structures, VARIANT_PART};
pub use type_standing::TypeStanding;
pub use typed_units::TypedUnits;

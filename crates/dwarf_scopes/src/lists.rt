//! The lists of a unit by its version.

ghost use Rattle.std.specs.Prelude.{◌≡◌};
ghost use Rattle.dwarf_bytes.specs.calls.Answers.{found_at};
ghost use Rattle.dwarf_scopes.specs.Lists as lists;

use dwarf_bytes::ReadFault;
use dwarf_info::{Sections5, Unit};
use dwarf_loc::Span;
use dwarf5_info::{list_base, location5_at, range5_holds};

/// The expression of the entry of a location list that counts for an address, as its place in the
/// section: in `.debug_loclists` where the unit is of version 5, else in `.debug_loc`. None where
/// no entry holds it and the list has no default.
///
/// # Errors
///
/// `Unreadable` with this offset where no list stands there, up to its end mark.
pub fn location_in(
    sections: &Sections5<'_>,
    unit: &Unit<'_>,
    at: usize,
    address: u32,
) -> Result<Option<Span>, ReadFault>
    ensures { result ≡ found_at at (lists.location_in sections.now unit.now at address) }
{
    if unit.version == 5 {
        return location5_at(sections, unit, at, address);
    }
    dwarf_loc::location_at(sections.base.loc, at, list_base(unit), address)
}

/// Whether an entry of a range list holds an address: in `.debug_rnglists` where the unit is of
/// version 5, else in `.debug_ranges`.
///
/// # Errors
///
/// `Unreadable` with this offset where no list stands there, up to its end mark.
pub fn range_in(
    sections: &Sections5<'_>,
    unit: &Unit<'_>,
    at: usize,
    address: u32,
) -> Result<bool, ReadFault>
    ensures { result ≡ found_at at (lists.range_in sections.now unit.now at address) }
{
    if unit.version == 5 {
        return range5_holds(sections, unit, at, address);
    }
    dwarf_loc::range_holds(sections.base.ranges, at, list_base(unit), address)
}

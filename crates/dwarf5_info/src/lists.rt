//! What the lists of a unit say of an address (DWARF 5 sections 2.6.2 and 2.17.3).

ghost use Rattle.std.specs.Prelude.{ℕ, ◌≡◌, ◌↔◌, List, [], Ok, Err, is_some, option_copied, unwrap_or};
ghost use Rattle.dwarf_bytes.specs.calls.Answers.{found_at};
ghost use Rattle.dwarf_bytes.specs.declared.faults.ReadFault.TheVariants.{Unreadable};
ghost use Rattle.dwarf_info.specs.Attributes.{valued, as_offset, addr_base};
ghost use Rattle.dwarf_info.specs.Entries.{root_attributes};
ghost use Rattle.dwarf_loc.specs.declared.entry.ListEntry.{ListEntry as Listed};
ghost use Rattle.dwarf_loc.specs.declared.contents.Span.{Span as SpanOf};
ghost use Rattle.dwarf_loc.specs.Lists.{chosen};
ghost use Rattle.dwarf_loc.specs.Addresses.{address_of};
ghost use Rattle.dwarf_loc.specs.calls.Grammar5.{IsLocations5, IsRanges5};
ghost use Rattle.dwarf5_info.specs.Lists as lists;

use dwarf_bytes::ReadFault;
use dwarf_entries::names::{ADDR_BASE, LOW_PC};
use dwarf_entries::{address, offset};
use dwarf_info::{Attributes, Sections5, Unit};
use dwarf_loc::{AddressTable, Span};

fn root<'r, 'a>(unit: &'r Unit<'a>) -> Option<&'r Attributes<'a>>
    ensures { unwrap_or (option_copied result) [] ≡ root_attributes unit.now.entries }
{
    match unit.entries.as_slice() {
        [root, ..] => Some(&root.attributes),
        [] => None,
    }
}

/// The base from which the lists of a unit begin to count: the low_pc of its root, or 0.
pub fn list_base(unit: &Unit<'_>) -> u32
    ensures { result ≡ lists.list_base unit.now }
{
    match root(unit) {
        Some(root) => address(root, LOW_PC).unwrap_or(0),
        None => 0,
    }
}

/// Where the addresses of the indices of a unit begin, if its root says so.
pub fn address_base(unit: &Unit<'_>) -> Option<u32>
    ensures { result ≡ valued as_offset addr_base (root_attributes unit.now.entries) }
{
    match root(unit) {
        Some(root) => offset(root, ADDR_BASE),
        None => None,
    }
}

/// The addresses of the indices of a unit (DWARF 5 section 7.27).
pub fn address_table<'a>(sections: &Sections5<'a>, unit: &Unit<'_>) -> AddressTable<'a>
    ensures { result ≡ lists.addresses_of sections.now unit.now }
{
    AddressTable::new(sections.addr, address_base(unit))
}

/// The expression of the entry of a location list of `.debug_loclists` that counts for an address,
/// as its place in the section. None where no entry holds it and the list has no default.
///
/// # Errors
///
/// `Unreadable` with this offset where no list stands there, up to its end mark.
pub fn location5_at(
    sections: &Sections5<'_>,
    unit: &Unit<'_>,
    at: usize,
    address: u32,
) -> Result<Option<Span>, ReadFault>
    ensures exact { result ≡ found_at at (lists.location5_of sections.now unit.now at address) }
    ensures spelled { (entries : List (Listed SpanOf))
        → IsLocations5 sections.now.loclists (address_of (lists.addresses_of sections.now unit.now))
        at entries
        → result ≡ Ok (chosen (lists.list_base unit.now) address entries) }
    ensures unreadable { (result ≡ Err (Unreadable at)) ↔ ((entries : List (Listed SpanOf))
        → IsLocations5 sections.now.loclists (address_of (lists.addresses_of sections.now unit.now))
        at entries → ⊥) }
{
    let addresses = address_table(sections, unit);
    dwarf_loc::loclist_location(sections.loclists, &addresses, at, list_base(unit), address)
}

/// Whether an entry of a range list of `.debug_rnglists` holds an address.
///
/// # Errors
///
/// `Unreadable` with this offset where no list stands there, up to its end mark.
pub fn range5_holds(
    sections: &Sections5<'_>,
    unit: &Unit<'_>,
    at: usize,
    address: u32,
) -> Result<bool, ReadFault>
    ensures exact { result ≡ found_at at (lists.range5_of sections.now unit.now at address) }
    ensures spelled { (entries : List (Listed (Prim.Unit {0})))
        → IsRanges5 sections.now.rnglists (address_of (lists.addresses_of sections.now unit.now)) at
        entries
        → result ≡ Ok (is_some (chosen (lists.list_base unit.now) address entries)) }
    ensures unreadable { (result ≡ Err (Unreadable at)) ↔ ((entries : List (Listed (Prim.Unit {0})))
        → IsRanges5 sections.now.rnglists (address_of (lists.addresses_of sections.now unit.now)) at
        entries → ⊥) }
{
    let addresses = address_table(sections, unit);
    dwarf_loc::rnglist_holds(sections.rnglists, &addresses, at, list_base(unit), address)
}

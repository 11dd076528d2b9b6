//! What lists say of an address.

ghost use Rattle.std.specs.Prelude.{ℕ, ◌≡◌, ◌↔◌, List, Ok, Err, Option, is_some, OnOk};
ghost use Rattle.wasm_bytes.specs.calls.Answers.{Reads};
ghost use Rattle.wasm_bytes.specs.Place.{Moves};
ghost use Rattle.wasm_bytes.specs.Reading.{byte_item};
ghost use Rattle.dwarf_bytes.specs.Items.{meaning_item};
ghost use Rattle.dwarf_bytes.specs.calls.Answers.{found_at};
ghost use Rattle.dwarf_bytes.specs.declared.faults.ReadFault.TheVariants.{Unreadable};
ghost use Rattle.dwarf_loc.specs.declared.entry.ListEntry.{ListEntry as Listed};
ghost use Rattle.dwarf_loc.specs.declared.contents.Span.{Span as SpanOf};
ghost use Rattle.dwarf_loc.specs.Contents.{nothing_item};
ghost use Rattle.dwarf_loc.specs.Lists.{chosen};
ghost use Rattle.dwarf_loc.specs.Addresses.{address_of};
ghost use Rattle.dwarf_loc.specs.Kinds.{location_kind, range_kind};
ghost use Rattle.dwarf_loc.specs.Version5.{expression5_item, entry5_item, location5, range5};
ghost use Rattle.dwarf_loc.specs.calls.Grammar5.{IsLocations5, IsRanges5};

use crate::addresses::AddressTable;
use crate::kind::{location_kind, range_kind};
use crate::version5_entry::behind;
use crate::{Contents, Entries, ListEntry, NoContents, Span, chosen_at, read_span};
use dwarf_bytes::ReadFault;
use wasm_bytes::{Malformed, Reader};

/// An expression with its length in front.
struct Expression;

impl Contents for Expression {
    type Value = Span;

    ghost item = { expression5_item };

    #[tactic(auto, unfolding(crate::specs::Version5::expression5_item))]
    fn read(reader: &mut Reader<'_>) -> Result<Span, Malformed> {
        let len = reader.u64()?;
        read_span(reader, len as usize)
    }
}

/// The next entry of a location list of `.debug_loclists`, or None at its end mark. Indices are
/// those of the addresses.
#[tactic(auto, unfolding(crate::specs::Version5::entry5_item))]
pub fn loclist_entry(
    addresses: &AddressTable<'_>,
    reader: &mut Reader<'_>,
) -> Result<Option<ListEntry<Span>>, Malformed>
    ensures item { Reads result reader.new (entry5_item location_kind (address_of addresses.now)
        expression5_item reader.old) }
    ensures moves { OnOk result (Moves reader.old reader.new) }
{
    let at = reader.at();
    match location_kind(reader.byte()?) {
        Some(kind) => behind::<Expression>(kind, addresses, reader),
        None => Err(Malformed { at }),
    }
}

/// The next entry of a range list of `.debug_rnglists`, or None at its end mark. Indices are those
/// of the addresses.
#[tactic(auto, unfolding(crate::specs::Version5::entry5_item))]
pub fn rnglist_entry(
    addresses: &AddressTable<'_>,
    reader: &mut Reader<'_>,
) -> Result<Option<ListEntry<()>>, Malformed>
    ensures item { Reads result reader.new (entry5_item range_kind (address_of addresses.now)
        nothing_item reader.old) }
    ensures moves { OnOk result (Moves reader.old reader.new) }
{
    let at = reader.at();
    match range_kind(reader.byte()?) {
        Some(kind) => behind::<NoContents>(kind, addresses, reader),
        None => Err(Malformed { at }),
    }
}

/// Of `.debug_loclists`.
#[derive(Drop)]
struct Locations<'r, 'a> {
    addresses: &'r AddressTable<'a>,
}

impl<'r, 'a> Entries for Locations<'r, 'a> {
    type What = Span;

    ghost item = { λ lists. entry5_item location_kind (address_of lists.addresses.now)
        expression5_item };

    fn read(&self, reader: &mut Reader<'_>) -> Result<Option<ListEntry<Span>>, Malformed> {
        loclist_entry(self.addresses, reader)
    }
}

/// Of `.debug_rnglists`.
#[derive(Drop)]
struct Ranges<'r, 'a> {
    addresses: &'r AddressTable<'a>,
}

impl<'r, 'a> Entries for Ranges<'r, 'a> {
    type What = ();

    ghost item = { λ lists. entry5_item range_kind (address_of lists.addresses.now) nothing_item };

    fn read(&self, reader: &mut Reader<'_>) -> Result<Option<ListEntry<()>>, Malformed> {
        rnglist_entry(self.addresses, reader)
    }
}

#[tactic(auto, unfolding(crate::specs::Version5::location5, crate::specs::Version5::list5_item))]
fn expression_at(
    section: &[u8],
    addresses: &AddressTable<'_>,
    at: usize,
    base: u32,
    address: u32,
) -> Result<Option<Span>, ReadFault>
    ensures { result ≡ found_at at
        (location5 section.now (address_of addresses.now) at base address) }
{
    let lists = Locations { addresses };
    chosen_at(&lists, section, at, base, address)
}

/// The expression of the entry of a location list of `.debug_loclists` that counts for an address,
/// as its place in the section. Indices are those of the addresses.
///
/// # Errors
///
/// `Unreadable` with this offset where no list stands there, up to its end mark.
pub fn loclist_location(
    section: &[u8],
    addresses: &AddressTable<'_>,
    at: usize,
    base: u32,
    address: u32,
) -> Result<Option<Span>, ReadFault>
    ensures exact { result ≡ found_at at
        (location5 section.now (address_of addresses.now) at base address) }
    ensures spelled { (entries : List (Listed SpanOf))
        → IsLocations5 section.now (address_of addresses.now) at entries
        → result ≡ Ok (chosen base address entries) }
    ensures unreadable { (result ≡ Err (Unreadable at))
        ↔ ((entries : List (Listed SpanOf))
        → IsLocations5 section.now (address_of addresses.now) at entries → ⊥) }
{
    expression_at(section, addresses, at, base, address)
}

#[tactic(auto, unfolding(crate::specs::Version5::range5, crate::specs::Version5::list5_item))]
fn is_held(
    section: &[u8],
    addresses: &AddressTable<'_>,
    at: usize,
    base: u32,
    address: u32,
) -> Result<bool, ReadFault>
    ensures { result ≡ found_at at (range5 section.now (address_of addresses.now) at base address) }
{
    let lists = Ranges { addresses };
    let what = chosen_at(&lists, section, at, base, address)?;
    Ok(what.is_some())
}

/// Whether an entry of a range list of `.debug_rnglists` holds the address. Indices are those of
/// the addresses.
///
/// # Errors
///
/// `Unreadable` with this offset where no list stands there, up to its end mark.
pub fn rnglist_holds(
    section: &[u8],
    addresses: &AddressTable<'_>,
    at: usize,
    base: u32,
    address: u32,
) -> Result<bool, ReadFault>
    ensures exact { result ≡ found_at at
        (range5 section.now (address_of addresses.now) at base address) }
    ensures spelled { (entries : List (Listed (Unit {0})))
        → IsRanges5 section.now (address_of addresses.now) at entries
        → result ≡ Ok (is_some (chosen base address entries)) }
    ensures unreadable { (result ≡ Err (Unreadable at))
        ↔ ((entries : List (Listed (Unit {0})))
        → IsRanges5 section.now (address_of addresses.now) at entries → ⊥) }
{
    is_held(section, addresses, at, base, address)
}

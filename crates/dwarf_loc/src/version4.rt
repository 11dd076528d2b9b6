//! Lists of version 4 (DWARF 4, 2.6.2 and 2.17.3).

ghost use Rattle.std.specs.Prelude.{◌≡◌, ◌↔◌, List, Ok, Err, is_some, OnOk};
ghost use Rattle.wasm_bytes.specs.Place.{Moves};
ghost use Rattle.wasm_bytes.specs.calls.Answers.{Reads};
ghost use Rattle.wasm_bytes.specs.Reading.{◌⊗◌};
ghost use Rattle.dwarf_bytes.specs.Items.{number_item};
ghost use Rattle.dwarf_bytes.specs.calls.Answers.{found_at};
ghost use Rattle.dwarf_loc.specs.Version4.{expression4_item, entry4_item, location4, range4};
ghost use Rattle.dwarf_bytes.specs.declared.faults.ReadFault.TheVariants.{Unreadable};
ghost use Rattle.dwarf_loc.specs.declared.entry.ListEntry.{ListEntry as Listed};
ghost use Rattle.dwarf_loc.specs.declared.contents.Span.{Span as SpanOf};
ghost use Rattle.dwarf_loc.specs.Lists.{chosen};
ghost use Rattle.dwarf_loc.specs.Contents.{nothing_item};
ghost use Rattle.dwarf_loc.specs.calls.Grammar.{IsLocations, IsRanges};

use crate::address::read_address;
use crate::contents::{Contents, NoContents, Span, read_span};
use crate::entry::ListEntry;
use crate::search::{Entries, chosen_at};
use dwarf_bytes::{ReadFault, number};
use wasm_bytes::{Malformed, Reader};

/// The first number of a pair whose second one is a base.
const SELECTION: u32 = 0xffff_ffff;

/// An expression with its length, of 2 bytes, in front.
struct Expression;

impl Contents for Expression {
    type Value = Span;

    ghost item = { expression4_item };

    #[tactic(auto, unfolding(crate::specs::Version4::expression4_item))]
    fn read(reader: &mut Reader<'_>) -> Result<Span, Malformed> {
        let len = number(reader, 2)?;
        read_span(reader, len as usize)
    }
}

fn pair(reader: &mut Reader<'_>) -> Result<(u32, u32), Malformed>
    ensures item { Reads result reader.new ((number_item 4 ⊗ number_item 4) reader.old) }
    ensures moves { OnOk result (Moves reader.old reader.new) }
{
    let first = read_address(reader)?;
    let second = read_address(reader)?;
    Ok((first, second))
}

#[tactic(auto, unfolding(crate::specs::Version4::entry4_item))]
fn entry<C: Contents>(reader: &mut Reader<'_>) -> Result<Option<ListEntry<C::Value>>, Malformed>
    ensures item { Reads result reader.new (entry4_item C.item reader.old) }
    ensures moves { OnOk result (Moves reader.old reader.new) }
{
    let (begin, end) = pair(reader)?;
    if begin == 0 && end == 0 {
        return Ok(None);
    }
    if begin == SELECTION {
        return Ok(Some(ListEntry::Base(end)));
    }
    let what = C::read(reader)?;
    Ok(Some(ListEntry::FromBase {
        begin: u64::from(begin),
        end: u64::from(end),
        what,
    }))
}

/// The next entry of a location list of `.debug_loc`, or None at its end mark.
pub fn location_entry(reader: &mut Reader<'_>) -> Result<Option<ListEntry<Span>>, Malformed>
    ensures item { Reads result reader.new (entry4_item expression4_item reader.old) }
    ensures moves { OnOk result (Moves reader.old reader.new) }
{
    entry::<Expression>(reader)
}

/// The next entry of a range list of `.debug_ranges`, or None at its end mark.
pub fn range_entry(reader: &mut Reader<'_>) -> Result<Option<ListEntry<()>>, Malformed>
    ensures item { Reads result reader.new (entry4_item nothing_item reader.old) }
    ensures moves { OnOk result (Moves reader.old reader.new) }
{
    entry::<NoContents>(reader)
}

/// Of `.debug_loc`.
struct Locations;

impl Entries for Locations {
    type What = Span;

    ghost item = { λ _. entry4_item expression4_item };

    fn read(&self, reader: &mut Reader<'_>) -> Result<Option<ListEntry<Span>>, Malformed> {
        location_entry(reader)
    }
}

/// Of `.debug_ranges`.
struct Ranges;

impl Entries for Ranges {
    type What = ();

    ghost item = { λ _. entry4_item nothing_item };

    fn read(&self, reader: &mut Reader<'_>) -> Result<Option<ListEntry<()>>, Malformed> {
        range_entry(reader)
    }
}

/// The expression of the first entry of a location list that holds the address, as its place in the
/// section.
///
/// # Errors
///
/// `Unreadable` with this offset where no list stands there, up to its end mark.
#[tactic(auto, unfolding(crate::specs::Version4::location4, crate::specs::Version4::list4_item))]
pub fn location_at(
    section: &[u8],
    at: usize,
    base: u32,
    address: u32,
) -> Result<Option<Span>, ReadFault>
    ensures exact { result ≡ found_at at (location4 section.now at base address) }
    ensures spelled { (entries : List (Listed SpanOf)) → IsLocations section.now at entries
        → result ≡ Ok (chosen base address entries) }
    ensures unreadable { (result ≡ Err (Unreadable at))
        ↔ ((entries : List (Listed SpanOf)) → IsLocations section.now at entries → ⊥) }
{
    chosen_at(&Locations, section, at, base, address)
}

#[tactic(auto, unfolding(crate::specs::Version4::range4, crate::specs::Version4::list4_item))]
fn is_held(section: &[u8], at: usize, base: u32, address: u32) -> Result<bool, ReadFault>
    ensures { result ≡ found_at at (range4 section.now at base address) }
{
    let what = chosen_at(&Ranges, section, at, base, address)?;
    Ok(what.is_some())
}

/// Whether an entry of a range list holds the address.
///
/// # Errors
///
/// `Unreadable` with this offset where no list stands there, up to its end mark.
pub fn range_holds(section: &[u8], at: usize, base: u32, address: u32) -> Result<bool, ReadFault>
    ensures exact { result ≡ found_at at (range4 section.now at base address) }
    ensures spelled { (entries : List (Listed (Unit {0}))) → IsRanges section.now at entries
        → result ≡ Ok (is_some (chosen base address entries)) }
    ensures unreadable { (result ≡ Err (Unreadable at))
        ↔ ((entries : List (Listed (Unit {0}))) → IsRanges section.now at entries → ⊥) }
{
    is_held(section, at, base, address)
}

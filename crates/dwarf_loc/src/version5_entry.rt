//! Entries of lists.

ghost use Rattle.std.specs.Prelude.{ℕ, ◌≡◌, Option, OnOk};
ghost use Rattle.wasm_bytes.specs.Place.{Moves, Stays};
ghost use Rattle.wasm_bytes.specs.calls.Answers.{Reads};
ghost use Rattle.wasm_bytes.specs.Reading.{◌⊗◌, mapped, u64_item};
ghost use Rattle.dwarf_bytes.specs.Items.{number_item};
ghost use Rattle.dwarf_loc.specs.Addresses.{address_of};
ghost use Rattle.dwarf_loc.specs.Version5.{indexed_item, offsets_of, between_of, lasting_of, behind_kind, entry5_item};

use crate::addresses::{AddressTable, indexed};
use crate::kind::EntryKind;
use crate::{Contents, ListEntry, read_address};
use wasm_bytes::{Malformed, Reader};

type Entry<C> = Option<ListEntry<<C as Contents>::Value>>;

fn startx_endx<C: Contents>(
    addresses: &AddressTable<'_>,
    reader: &mut Reader<'_>,
) -> Result<Entry<C>, Malformed>
    ensures item { Reads result reader.new
        (mapped between_of (indexed_item (address_of addresses.now)
        ⊗ indexed_item (address_of addresses.now) ⊗ C.item) reader.old) }
    ensures moves { OnOk result (Moves reader.old reader.new) }
{
    let begin = indexed(addresses, reader)?;
    let end = indexed(addresses, reader)?;
    let what = C::read(reader)?;
    Ok(Some(ListEntry::Between { begin, end, what }))
}

fn startx_length<C: Contents>(
    addresses: &AddressTable<'_>,
    reader: &mut Reader<'_>,
) -> Result<Entry<C>, Malformed>
    ensures item { Reads result reader.new
        (mapped lasting_of (indexed_item (address_of addresses.now)
        ⊗ u64_item ⊗ C.item) reader.old) }
    ensures moves { OnOk result (Moves reader.old reader.new) }
{
    let begin = indexed(addresses, reader)?;
    let length = reader.u64()?;
    let what = C::read(reader)?;
    Ok(Some(ListEntry::Lasting {
        begin,
        length,
        what,
    }))
}

fn offset_pair<C: Contents>(reader: &mut Reader<'_>) -> Result<Entry<C>, Malformed>
    ensures item { Reads result reader.new
        (mapped offsets_of (u64_item ⊗ u64_item ⊗ C.item) reader.old) }
    ensures moves { OnOk result (Moves reader.old reader.new) }
{
    let begin = reader.u64()?;
    let end = reader.u64()?;
    let what = C::read(reader)?;
    Ok(Some(ListEntry::FromBase { begin, end, what }))
}

fn start_end<C: Contents>(reader: &mut Reader<'_>) -> Result<Entry<C>, Malformed>
    ensures item { Reads result reader.new
        (mapped between_of (number_item 4 ⊗ number_item 4 ⊗ C.item) reader.old) }
    ensures moves { OnOk result (Moves reader.old reader.new) }
{
    let begin = read_address(reader)?;
    let end = read_address(reader)?;
    let what = C::read(reader)?;
    Ok(Some(ListEntry::Between { begin, end, what }))
}

fn start_length<C: Contents>(reader: &mut Reader<'_>) -> Result<Entry<C>, Malformed>
    ensures item { Reads result reader.new
        (mapped lasting_of (number_item 4 ⊗ u64_item ⊗ C.item) reader.old) }
    ensures moves { OnOk result (Moves reader.old reader.new) }
{
    let begin = read_address(reader)?;
    let length = reader.u64()?;
    let what = C::read(reader)?;
    Ok(Some(ListEntry::Lasting {
        begin,
        length,
        what,
    }))
}

/// What stands behind a kind.
#[tactic(auto, unfolding(crate::specs::Version5::behind_kind))]
pub fn behind<C: Contents>(
    kind: EntryKind,
    addresses: &AddressTable<'_>,
    reader: &mut Reader<'_>,
) -> Result<Entry<C>, Malformed>
    ensures item { Reads result reader.new
        (behind_kind (address_of addresses.now) C.item kind reader.old) }
    ensures stays { OnOk result (Stays reader.old reader.new) }
{
    match kind {
        EntryKind::EndOfList => Ok(None),
        EntryKind::BaseAddressx => Ok(Some(ListEntry::Base(indexed(addresses, reader)?))),
        EntryKind::StartxEndx => startx_endx::<C>(addresses, reader),
        EntryKind::StartxLength => startx_length::<C>(addresses, reader),
        EntryKind::OffsetPair => offset_pair::<C>(reader),
        EntryKind::DefaultLocation => Ok(Some(ListEntry::Otherwise(C::read(reader)?))),
        EntryKind::BaseAddress => Ok(Some(ListEntry::Base(read_address(reader)?))),
        EntryKind::StartEnd => start_end::<C>(reader),
        EntryKind::StartLength => start_length::<C>(reader),
    }
}

//! Reading rows of tables of abbreviations.

ghost use Rattle.std.specs.Prelude.{◌≡◌, ◌+◌, ◌-◌, length, OnOk};
ghost use Rattle.std.specs.Ordering.{nat_cmp};
ghost use Rattle.std.specs.BTreeMap.{get};
ghost use Rattle.wasm_bytes.specs.Place.{Moves, Stays};
ghost use Rattle.wasm_bytes.specs.calls.Answers.{Gives};
ghost use Rattle.dwarf_bytes.specs.Items.{ended_from, ended_item};
ghost use Rattle.dwarf_info.specs.calls.Keeping.{row_item};
ghost use Rattle.dwarf_info.specs.calls.Pairs.{AreThere, Knows, told};

use crate::form::{Shape, Slot};
use crate::known::{KnownPairs, PairsAt};
use crate::slots::{SlotLists, Slots};
use crate::version::UnitVersion;
use causes::NoMemory;
use dwarf_abbrev::read_flag;
use pm_text::Items;
use std::alloc::Global;
use std::rc::Rc;
use wasm_bytes::{ItemFault, Reader};

/// Pairs up to the end mark.
fn slots_left<'a, V: UnitVersion<'a>>(
    alloc: Global,
    reader: &mut Reader<'a>,
) -> Result<Items<Slot>, ItemFault>
    ensures item { Gives result reader.new
        (ended_from V.pair (length reader.old.block + 1 - reader.old.at) reader.old) }
    ensures stays { OnOk result (Stays reader.old reader.new) }
{
    let mut slots = Items::new(alloc);
    'slots: loop {
        // The place is inside its block, so that fewer bytes are left behind it.
        let _at = reader.at();
        let Some(slot) = V::read_pair(reader)? else {
            return Ok(slots);
        };
        slots.push(slot)?;
    }
}

/// Pairs that no other row shares.
#[tactic(auto, unfolding(dwarf_bytes::specs::Items::ended_item))]
fn read_anew<'a, V: UnitVersion<'a>>(
    alloc: Global,
    reader: &mut Reader<'a>,
) -> Result<Slots, ItemFault>
    ensures item { Gives result reader.new (ended_item V.pair reader.old) }
    ensures stays { OnOk result (Stays reader.old reader.new) }
{
    match slots_left::<V>(alloc, reader) {
        Ok(slots) => match Slots::new(alloc, slots.as_slice()) {
            Ok(shared) => Ok(shared),
            Err(NoMemory) => Err(ItemFault::NoMemory),
        },
        Err(fault) => Err(fault),
    }
}

/// Pairs that are known, whose end mark the reader then stands behind.
fn read_known<'a>(
    alloc: Global,
    section: &'a [u8],
    lists: &Rc<SlotLists>,
    known: PairsAt,
    reader: &mut Reader<'a>,
) -> Result<Slots, ItemFault>
    requires section { reader.old.block ≡ section.now }
    requires there { AreThere lists.now.value section.now reader.old.at known }
    ensures item { Gives result reader.new (told lists.now.value section.now known) }
    ensures stays { OnOk result (Stays reader.old reader.new) }
{
    match known {
        PairsAt::Listed { list, end } => {
            *reader = Reader::starting_at(section, end as usize);
            Ok(Slots::of(alloc, lists, list)?)
        }
        PairsAt::Fault(at) => Err(ItemFault::At(at)),
    }
}

/// The pairs of a row, which are those that are known, where they are.
fn read_slots<'a, V: UnitVersion<'a>>(
    alloc: Global,
    section: &'a [u8],
    pairs: &KnownPairs,
    reader: &mut Reader<'a>,
) -> Result<Slots, ItemFault>
    requires section { reader.old.block ≡ section.now }
    requires knows { Knows V.pair section.now pairs.now.lists.value (get nat_cmp pairs.now.known) }
    ensures item { Gives result reader.new (ended_item V.pair reader.old) }
    ensures stays { OnOk result (Stays reader.old reader.new) }
{
    let start = reader.at();
    match pairs.found_at(start as u64) {
        Some(known) => read_known(alloc, section, &pairs.lists, known, reader),
        None => read_anew::<V>(alloc, reader),
    }
}

/// The first row of the table at a place, or None at its end.
pub fn read_row<'a, V: UnitVersion<'a>>(
    alloc: Global,
    section: &'a [u8],
    pairs: &KnownPairs,
    reader: &mut Reader<'a>,
) -> Result<Option<Shape>, ItemFault>
    requires section { reader.old.block ≡ section.now }
    requires knows { Knows V.pair section.now pairs.now.lists.value (get nat_cmp pairs.now.known) }
    ensures item { Gives result reader.new (row_item V.pair reader.old) }
    ensures moves { OnOk result (Moves reader.old reader.new) }
{
    let code = reader.u64()?;
    if code == 0 {
        return Ok(None);
    }
    let tag = reader.u64()?;
    let children = read_flag(reader)?;
    match read_slots::<V>(alloc, section, pairs, reader) {
        Ok(slots) => Ok(Some(Shape {
            code,
            tag,
            children,
            slots,
        })),
        Err(fault) => Err(fault),
    }
}

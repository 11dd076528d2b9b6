//! Reading the entries of a unit (DWARF 4 sections 2.3 and 7.5.2), written out in the order of the
//! section.

ghost use Rattle.std.specs.Prelude.{◌≡◌, ◌≤◌, ◌<◌, ◌+◌, ◌-◌, ◌^◌, length, IfOk, OnOk};
ghost use Rattle.wasm_bytes.specs.Place.{Moves, Stays};
ghost use Rattle.wasm_bytes.specs.Reading.{steps_while_due};
ghost use Rattle.wasm_bytes.specs.calls.Answers.{Gives, with_state};
ghost use Rattle.dwarf_abbrev.specs.calls.Shared.{list_of};
ghost use Rattle.dwarf_info.specs.Sections.{greatest_section};
ghost use Rattle.dwarf_info.specs.Values.{attributes_item};
ghost use Rattle.dwarf_info.specs.inner.Contexts.{seen};
ghost use Rattle.dwarf_info.specs.inner.Joined.{own_slots};
ghost use Rattle.dwarf_info.specs.inner.Reading.{own_item};
ghost use Rattle.dwarf_info.specs.Entries.{seed, closing_item, shape_item, step_item, is_whole, entries_item};

use crate::attributes::Attributes;
use crate::context::UnitContext;
use crate::entry::{AttrValue, Entries, Entry};
use crate::form::Shape;
use crate::growing::Growing;
use crate::slots::{SlotLists, Slots};
use crate::value::read_slot;
use crate::version::UnitVersion;
use causes::NoMemory;
use pm_text::Items;
use std::alloc::Global;
use wasm_bytes::{ItemFault, Reader};

impl<'a> Growing<'a> {
    /// No entry yet.
    pub fn new(alloc: Global) -> Self
        ensures { result ≡ seed }
    {
        Growing {
            entries: Items::new(alloc),
            depth: 0,
        }
    }

    /// The tree is whole: its root is there, and no list of children is open.
    fn is_whole(&self) -> bool
        ensures { result ≡ is_whole self.now }
    {
        !self.entries.is_empty() && self.depth == 0
    }
}

/// The values of the attributes of a list that take bytes.
pub fn read_own<'c, 'a, V: UnitVersion<'a>>(
    alloc: Global,
    context: &UnitContext<'c, 'a, V::Index>,
    lists: &SlotLists,
    start: u32,
    reader: &mut Reader<'a>,
) -> Result<Items<AttrValue<'a>>, ItemFault>
    ensures item { Gives result reader.new (own_item (seen V.version V.looked context.now)
        (own_slots (list_of lists.now start)) reader.old) }
    ensures count { IfOk result (λ own. length own
        ≡ length (own_slots (list_of lists.now start))) }
    ensures stays { OnOk result (Stays reader.old reader.new) }
{
    let mut own = Vec::with_capacity(alloc, lists.own_len(start))?;
    let mut list = lists.own_from(start);
    'slots: while let Some(slot) = lists.first(list) {
        let behind = lists.own_from(lists.rest(list));
        list = behind;
        match read_slot::<V>(context, slot, reader) {
            Ok(value) => own.push(value)?,
            Err(fault) => return Err(ItemFault::At(fault.at)),
        }
    }
    Ok(Items::from_vec(own))
}

/// The attributes of an entry, as its abbreviation lists them. Only those that take bytes are
/// visited.
pub fn read_attributes<'c, 'a, V: UnitVersion<'a>>(
    alloc: Global,
    context: &UnitContext<'c, 'a, V::Index>,
    slots: &Slots,
    reader: &mut Reader<'a>,
) -> Result<Attributes<'a>, ItemFault>
    ensures item { Gives result reader.new
        (attributes_item (seen V.version V.looked context.now) slots.now reader.old) }
    ensures stays { OnOk result (Stays reader.old reader.new) }
{
    match slots.read_own::<V>(alloc, context, reader) {
        Ok(own) => match slots.shared() {
            Ok(shared) => Ok(Attributes::new(shared, own)),
            Err(NoMemory) => Err(ItemFault::NoMemory),
        },
        Err(fault) => Err(fault),
    }
}

/// The end of the innermost list of children.
fn close<'a>(growing: &mut Growing<'a>, reader: &Reader<'a>) -> Result<(), ItemFault>
    ensures item { Gives (with_state growing.new result) reader.now
        (closing_item growing.old.entries growing.old.depth reader.now) }
    ensures depth { OnOk result (growing.new.depth ≤ growing.old.depth) }
{
    if growing.depth == 0 {
        return Err(ItemFault::At(reader.at()));
    }
    growing.depth -= 1;
    Ok(())
}

/// One more entry, which began at that offset.
fn open<'c, 'a, V: UnitVersion<'a>>(
    alloc: Global,
    context: &UnitContext<'c, 'a, V::Index>,
    shape: &Shape,
    at: u32,
    growing: &mut Growing<'a>,
    reader: &mut Reader<'a>,
) -> Result<(), ItemFault>
    requires room { growing.old.depth < 2 ^ 32 - 1 }
    ensures item { Gives (with_state growing.new result) reader.new
        (shape_item (seen V.version V.looked context.now) growing.old at shape.now reader.old) }
    ensures stays { OnOk result (Stays reader.old reader.new) }
    ensures depth { OnOk result (growing.new.depth ≤ growing.old.depth + 1) }
{
    let attributes = read_attributes::<V>(alloc, context, &shape.slots, reader)?;
    growing.entries.push(Entry {
        at,
        depth: growing.depth,
        tag: shape.tag,
        attributes,
    })?;
    if shape.children {
        growing.depth += 1;
    }
    Ok(())
}

/// The next entry, or the end of a list of children.
#[tactic(auto, unfolding(crate::specs::Entries::step_item))]
pub fn step<'c, 'a, V: UnitVersion<'a>>(
    alloc: Global,
    context: &UnitContext<'c, 'a, V::Index>,
    growing: &mut Growing<'a>,
    reader: &mut Reader<'a>,
) -> Result<(), ItemFault>
    requires short { length reader.old.block ≤ greatest_section }
    requires depth { growing.old.depth ≤ reader.old.at }
    ensures item { Gives (with_state growing.new result) reader.new
        (step_item (seen V.version V.looked context.now) growing.old reader.old) }
    ensures moves { OnOk result (Moves reader.old reader.new) }
    ensures depth { OnOk result (growing.new.depth ≤ reader.new.at) }
{
    let at = reader.at();
    let code = reader.u64()?;
    if code == 0 {
        return close(growing, reader);
    }
    match context.tables.find(context.table, code) {
        Some(shape) => open::<V>(alloc, context, shape, at as u32, growing, reader),
        None => Err(ItemFault::At(reader.at())),
    }
}

fn entries_left<'c, 'a, V: UnitVersion<'a>>(
    alloc: Global,
    context: &UnitContext<'c, 'a, V::Index>,
    growing: &mut Growing<'a>,
    reader: &mut Reader<'a>,
) -> Result<(), ItemFault>
    requires short { length reader.old.block ≤ greatest_section }
    requires depth { growing.old.depth ≤ reader.old.at }
    ensures item { Gives (with_state growing.new result) reader.new
        (steps_while_due is_whole (step_item (seen V.version V.looked context.now))
        (length reader.old.block + 1 - reader.old.at) growing.old reader.old) }
    ensures stays { OnOk result (Stays reader.old reader.new) }
{
    'entries: while !growing.is_whole() {
        // The place is inside its block, so that fewer bytes are left behind it.
        let _at = reader.at();
        step::<V>(alloc, context, growing, reader)?;
    }
    Ok(())
}

/// The entries of the tree that stands at a place.
#[tactic(auto, unfolding(crate::specs::Entries::entries_item, wasm_bytes::specs::Reading::steps_until_done))]
pub fn read_entries<'c, 'a, V: UnitVersion<'a>>(
    alloc: Global,
    context: &UnitContext<'c, 'a, V::Index>,
    reader: &mut Reader<'a>,
) -> Result<Entries<'a>, ItemFault>
    requires short { length reader.old.block ≤ greatest_section }
    ensures item { Gives result reader.new
        (entries_item (seen V.version V.looked context.now) reader.old) }
    ensures stays { OnOk result (Stays reader.old reader.new) }
{
    let mut growing: Growing<'a> = Growing::new(alloc);
    match entries_left::<V>(alloc, context, &mut growing, reader) {
        Ok(()) => Ok(growing.entries),
        Err(fault) => Err(fault),
    }
}

//! The attributes of an entry.

ghost use Rattle.std.specs.Prelude.{◌≡◌, map, IfOk};
ghost use Rattle.dwarf_abbrev.specs.calls.Shared.{list_of};
ghost use Rattle.dwarf_info.specs.Attributes.{attribute};
ghost use Rattle.dwarf_info.specs.inner.Joined.{joined, value_at, AreOwn};
ghost use Rattle.dwarf_info.specs.inner.Settling.{placed, meets, settled_by, attribute_by};

use crate::entry::{AttrValue, Attribute};
use crate::places::Places;
use crate::settle::settle_value;
use crate::slots::{SlotLists, SlotPlace, Slots, counted, held};
use causes::NoMemory;
use pm_text::Items;
use std::alloc::Global;
use std::marker::Model;
use wasm_bytes::Run;

/// The attributes of an entry. What its abbreviation says of them is shared with the other entries
/// of it; what stands in its own bytes is kept here. Contracts see them as the list.
#[derive(Drop)]
pub struct Attributes<'a> {
    slots: Slots,
    // The value of each attribute that takes bytes, in order.
    own: Vec<AttrValue<'a>>,
}

impl<'a> Model for Attributes<'a> {
    ghost use Rattle.std.specs.Prelude.{List};
    ghost use Rattle.dwarf_info.specs.declared.entry.Attribute.{Attribute};
    ghost use Rattle.dwarf_info.specs.inner.Joined.{joined, AreOwn};

    ghost Value = { List Attribute };

    ghost view = { λ a. joined a.slots a.own.items };

    ghost invariant = { λ a. AreOwn a.slots a.own.items };
}

fn copied<'a>(value: &AttrValue<'a>) -> AttrValue<'a>
    ensures { result ≡ value.now }
{
    match value {
        AttrValue::Address(address) => AttrValue::Address(*address),
        AttrValue::Constant(number) => AttrValue::Constant(*number),
        AttrValue::Signed(number) => AttrValue::Signed(*number),
        AttrValue::Block(bytes) => AttrValue::Block(Run::new(bytes.as_slice())),
        AttrValue::Text(bytes) => AttrValue::Text(Run::new(bytes.as_slice())),
        AttrValue::Flag(is_set) => AttrValue::Flag(*is_set),
        AttrValue::Reference(at) => AttrValue::Reference(*at),
        AttrValue::Offset(at) => AttrValue::Offset(*at),
        AttrValue::Other => AttrValue::Other,
    }
}

/// The value at a place, among those of an entry.
fn value_at<'a>(own: &[AttrValue<'a>], place: SlotPlace) -> Option<AttrValue<'a>>
    ensures { result ≡ value_at own.now place }
{
    match place {
        SlotPlace::Present => Some(AttrValue::Flag(true)),
        SlotPlace::Implicit(value) => Some(AttrValue::Signed(value)),
        SlotPlace::Own(number) => match own.get(number) {
            Some(value) => Some(copied(value)),
            None => None,
        },
    }
}

/// Each slot of a list with its value.
pub fn all_of<'a>(
    alloc: Global,
    lists: &SlotLists,
    start: u32,
    own: &[AttrValue<'a>],
) -> Result<Items<Attribute<'a>>, NoMemory>
    ensures { IfOk result (λ all. all ≡ joined (list_of lists.now start) own.now) }
{
    let mut all = Items::new(alloc);
    let mut count: usize = 0;
    let mut list = start;
    'slots: while let Some(slot) = lists.first(list) {
        let Some(value) = value_at(own, held(&slot.form, count)) else {
            return Ok(all);
        };
        all.push(Attribute {
            name: slot.attribute,
            value,
        })?;
        count = counted(slot, count);
        list = lists.rest(list);
    }
    Ok(all)
}

fn settle_values<'a>(places: &Places, values: &mut [AttrValue<'a>])
    ensures { values.new ≡ map (settled_by (meets (placed places.now))) values.old }
{
    for value in values.iter_mut() {
        settle_value(places, value);
    }
}

impl<'a> Attributes<'a> {
    /// The attributes of an abbreviation, with a value for each that takes bytes.
    pub(crate) fn new(slots: Slots, own: Items<AttrValue<'a>>) -> Self
        requires { AreOwn slots own }
        ensures { result ≡ joined slots own.entry }
    {
        Attributes {
            slots,
            own: own.into_vec(),
        }
    }

    /// The value of the first attribute of a name, in logarithmic time.
    pub fn get(&self, name: u64) -> Option<AttrValue<'a>>
        ensures { result ≡ attribute name self.now }
    {
        let place = self.slots.place(name)?;
        value_at(self.own.as_slice(), place)
    }

    /// All attributes, in order.
    ///
    /// # Errors
    ///
    /// `NoMemory` where memory runs out.
    pub fn all(&self, alloc: Global) -> Result<Items<Attribute<'a>>, NoMemory>
        ensures { IfOk result (λ all. all ≡ self.now) }
    {
        self.slots.all(alloc, self.own.as_slice())
    }

    /// Nothing is left of each reference that meets no entry. It takes no memory.
    pub(crate) fn settle(&mut self, places: &Places)
        ensures { self.new ≡ map (attribute_by (meets (placed places.now))) self.old }
    {
        settle_values(places, self.own.as_mut_slice());
    }
}

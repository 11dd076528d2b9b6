//! The attributes of abbreviations, which rows and their entries share.

ghost use Rattle.std.specs.Prelude.{◌≡◌, ◌<◌, ◌≤◌, ◌+◌, ◌-◌, ◌^◌, [], ◌∷◌, ◌++◌, true, length, drop};
ghost use Rattle.std.specs.Prelude.{slice_get, IfOk, OnOk};
ghost use Rattle.std.specs.Prelude.{if◌then◌else◌};
ghost use Rattle.std.specs.Option.{option_copied};
ghost use Rattle.wasm_bytes.specs.Place.{Stays};
ghost use Rattle.wasm_bytes.specs.calls.Answers.{Gives};
ghost use Rattle.dwarf_abbrev.specs.calls.Shared.{list_of};
ghost use Rattle.dwarf_info.specs.inner.Contexts.{seen};
ghost use Rattle.dwarf_info.specs.inner.Joined.{takes_bytes, own_slots, held, counted, placed_in, joined};
ghost use Rattle.dwarf_info.specs.inner.Kept.{slots_of, Begins, AreKept};
ghost use Rattle.dwarf_info.specs.inner.Reading.{own_item};

use crate::attributes::all_of;
use crate::context::UnitContext;
use crate::entries::read_own;
use crate::entry::{AttrValue, Attribute};
use crate::form::{Form, SizedForm, Slot};
use crate::version::UnitVersion;
use causes::NoMemory;
use dwarf_abbrev::{Coded, SharedLists};
use pm_text::Items;
use std::alloc::Global;
use std::marker::Model;
use std::rc::Rc;
use wasm_bytes::{ItemFault, Reader};

/// Where the value of an attribute stands.
#[derive(Clone, Copy)]
pub enum SlotPlace {
    /// A flag that is set: the attribute takes no bytes.
    Present,
    /// This value: it stands in the abbreviation.
    Implicit(i64),
    /// The value of this number, from 0, among those in the bytes of an entry.
    Own(usize),
}

/// An attribute in front of a list of others.
#[derive(Drop)]
pub struct KeptSlot {
    pub slot: Slot,
    /// The list behind it.
    pub rest: u32,
    /// The first list behind it that begins with an attribute that takes bytes, or the empty one.
    pub next: u32,
    /// How many attributes take bytes, from this one on.
    pub own: usize,
}

impl Coded for KeptSlot {
    ghost code = { λ k. k.slot.attribute };

    fn code(&self) -> u64 {
        self.slot.attribute
    }
}

/// Lists of attributes, of which each but the empty one, number 0, is another one with an attribute
/// in front. Those that take bytes are found without a visit to the others, and the first one of a
/// name in logarithmic time.
#[derive(Drop)]
pub struct SlotLists {
    kept: SharedLists<KeptSlot>,
}

impl Model for SlotLists {
    ghost use Rattle.std.specs.Prelude.{List};
    ghost use Rattle.dwarf_info.specs.declared.form.Slot.{Slot};
    ghost use Rattle.dwarf_info.specs.inner.Kept.{slots_of, AreKept};

    ghost Value = { List (List Slot) };

    ghost view = { λ l. slots_of l.kept };

    ghost invariant = { λ l. AreKept l.kept };
}

/// One of the lists of attributes that rows share.
#[derive(Drop)]
struct SharedSlots {
    lists: Rc<SlotLists>,
    list: u32,
}

/// The attributes of an abbreviation, which its entries share: each holds no more than where they
/// are. Contracts see them as the list.
#[derive(Drop)]
pub struct Slots {
    row: Rc<SharedSlots>,
}

impl Model for Slots {
    ghost use Rattle.std.specs.Prelude.{List};
    ghost use Rattle.dwarf_abbrev.specs.calls.Shared.{list_of};
    ghost use Rattle.dwarf_info.specs.declared.form.Slot.{Slot};

    ghost Value = { List Slot };

    ghost view = { λ s. list_of s.row.value.lists.value s.row.value.list };
}

/// Where a value stands, behind so many that take bytes.
pub fn held(form: &Option<SizedForm>, count: usize) -> SlotPlace
    ensures { result ≡ held form.now count }
{
    match form {
        Some(form) => match form.form() {
            Form::Present => SlotPlace::Present,
            Form::Implicit(value) => SlotPlace::Implicit(value),
            _ => SlotPlace::Own(count),
        },
        None => SlotPlace::Own(count),
    }
}

pub fn takes_bytes(slot: &Slot) -> bool
    ensures { result ≡ takes_bytes slot.now }
{
    match &slot.form {
        Some(form) => match form.form() {
            Form::Present | Form::Implicit(_) => false,
            _ => true,
        },
        None => true,
    }
}

fn copied(slot: &Slot) -> Slot
    ensures { result ≡ slot.now }
{
    Slot {
        attribute: slot.attribute,
        form: match &slot.form {
            Some(form) => Some(SizedForm::new(form.form())),
            None => None,
        },
    }
}

/// How many slots take bytes, with one more behind so many.
pub fn counted(slot: &Slot, count: usize) -> usize
    requires { takes_bytes slot.now ≡ true → count < 2 ^ 64 - 1 }
    ensures { result ≡ counted slot.now count }
{
    if takes_bytes(slot) { count + 1 } else { count }
}

/// Of a list that begins with a slot: the list itself, if the slot takes bytes, or else the next one
/// that begins with such a one.
fn own_number(first: &KeptSlot, list: u32) -> u32
    ensures { result ≡ (if takes_bytes first.now.slot then list else first.now.next) }
{
    if takes_bytes(&first.slot) {
        list
    } else {
        first.next
    }
}

/// The first list, from that of a number on, that begins with a slot that takes bytes, or the empty
/// one.
fn own_from(kept: &SharedLists<KeptSlot>, list: u32) -> u32
    requires kept { AreKept kept.now }
    ensures same { own_slots (list_of (slots_of kept.now) result)
        ≡ own_slots (list_of (slots_of kept.now) list) }
    ensures begins { Begins (list_of (slots_of kept.now) result) }
    ensures there { result ≤ length kept.now }
{
    match kept.first(list) {
        Some(first) => own_number(first, list),
        None => 0,
    }
}

/// The slot that the list of a number begins with.
fn first_in(kept: &SharedLists<KeptSlot>, list: u32) -> Option<&Slot>
    requires kept { AreKept kept.now }
    ensures { option_copied result ≡ slice_get (list_of (slots_of kept.now) list) 0 }
{
    match kept.first(list) {
        Some(first) => Some(&first.slot),
        None => None,
    }
}

/// How many slots of the list of a number take bytes.
fn own_len(kept: &SharedLists<KeptSlot>, list: u32) -> usize
    requires kept { AreKept kept.now }
    ensures { result ≡ length (own_slots (list_of (slots_of kept.now) list)) }
{
    match kept.first(list) {
        Some(first) => first.own,
        None => 0,
    }
}

/// The list behind the first slot of that of a number.
fn rest_of(kept: &SharedLists<KeptSlot>, list: u32) -> u32
    requires kept { AreKept kept.now }
    ensures { list_of (slots_of kept.now) result
        ≡ drop 1 (list_of (slots_of kept.now) list) }
{
    match kept.first(list) {
        Some(first) => first.rest,
        None => 0,
    }
}

/// Where the value of the first slot of an attribute stands, in the list of a number.
fn place_in(kept: &SharedLists<KeptSlot>, list: u32, name: u64) -> Option<SlotPlace>
    requires kept { AreKept kept.now }
    ensures { result ≡ placed_in name (list_of (slots_of kept.now) list) 0 }
{
    let len = own_len(kept, list);
    match kept.find(list, name) {
        Some(found) => Some(held(&found.slot.form, len - found.own)),
        None => None,
    }
}

/// Adds the list that has a slot in front of that of a number, and hands out its own number.
fn add_slot(kept: &mut SharedLists<KeptSlot>, slot: Slot, rest: u32) -> Result<u32, NoMemory>
    requires kept { AreKept kept.old }
    requires there { rest ≤ length (slots_of kept.old) }
    ensures kept { AreKept kept.new }
    ensures made { OnOk result (slots_of kept.new
        ≡ slots_of kept.old ++ (slot ∷ list_of (slots_of kept.old) rest) ∷ []) }
    ensures number { IfOk result (λ number. number ≡ length (slots_of kept.old) + 1) }
{
    let next = own_from(kept, rest);
    let behind = own_len(kept, rest);
    if behind >= 0xFFFF_FFFF {
        return Err(NoMemory);
    }
    let own = counted(&slot, behind);
    kept.push(
        KeptSlot {
            slot,
            rest,
            next,
            own,
        },
        rest,
    )
}

impl SlotLists {
    /// No list but the empty one.
    pub fn new(alloc: Global) -> Self
        ensures { result ≡ [] }
    {
        SlotLists {
            kept: SharedLists::new(alloc),
        }
    }

    /// Adds the list that has a slot in front of that of a number, and hands out its own number.
    pub fn push(&mut self, slot: Slot, rest: u32) -> Result<u32, NoMemory>
        requires { rest ≤ length self.old }
        ensures made { OnOk result (self.new ≡ self.old ++ (slot ∷ list_of self.old rest) ∷ []) }
        ensures number { IfOk result (λ number. number ≡ length self.old + 1) }
    {
        add_slot(&mut self.kept, slot, rest)
    }

    /// The slot that the list of a number begins with.
    pub fn first(&self, list: u32) -> Option<&Slot>
        ensures { option_copied result ≡ slice_get (list_of self.now list) 0 }
    {
        first_in(&self.kept, list)
    }

    /// The list behind the first slot of that of a number.
    pub fn rest(&self, list: u32) -> u32
        ensures { list_of self.now result ≡ drop 1 (list_of self.now list) }
    {
        rest_of(&self.kept, list)
    }

    /// The first list, from that of a number on, that begins with a slot that takes bytes, or the
    /// empty one.
    pub fn own_from(&self, list: u32) -> u32
        ensures same { own_slots (list_of self.now result) ≡ own_slots (list_of self.now list) }
        ensures begins { Begins (list_of self.now result) }
    {
        own_from(&self.kept, list)
    }

    /// How many slots of the list of a number take bytes.
    pub fn own_len(&self, list: u32) -> usize
        ensures { result ≡ length (own_slots (list_of self.now list)) }
    {
        own_len(&self.kept, list)
    }

    /// Where the value of the first slot of an attribute stands, in the list of a number.
    pub fn place(&self, list: u32, name: u64) -> Option<SlotPlace>
        ensures { result ≡ placed_in name (list_of self.now list) 0 }
    {
        place_in(&self.kept, list, name)
    }
}

/// Adds the lists that end with slots, and hands out the number of the longest one.
fn add_slots(lists: &mut SlotLists, slots: &[Slot]) -> Result<u32, NoMemory>
    ensures { IfOk result (λ list. list_of lists.new list ≡ slots.now) }
{
    let mut list = 0;
    let mut left = slots.len();
    'slots: while left > 0 {
        left -= 1;
        list = lists.push(copied(&slots[left]), list)?;
    }
    Ok(list)
}

/// A value that several share.
pub fn shared<T: Drop>(alloc: Global, value: T) -> Result<Rc<T>, NoMemory>
    ensures { IfOk result (λ shared. shared.value ≡ value) }
{
    match Rc::new(alloc, value) {
        Ok(shared) => Ok(shared),
        Err(_) => Err(NoMemory),
    }
}

/// What entries share of a list.
fn shared_row(alloc: Global, lists: Rc<SlotLists>, list: u32) -> Result<Slots, NoMemory>
    ensures { IfOk result (λ slots. slots ≡ list_of lists.value list) }
{
    match shared(alloc, SharedSlots { lists, list }) {
        Ok(row) => Ok(Slots { row }),
        Err(NoMemory) => Err(NoMemory),
    }
}

impl Slots {
    /// The attributes of an abbreviation.
    pub fn new(alloc: Global, slots: &[Slot]) -> Result<Self, NoMemory>
        ensures { IfOk result (λ shared. shared ≡ slots.now) }
    {
        let mut lists = SlotLists::new(alloc);
        match add_slots(&mut lists, slots) {
            Ok(list) => match shared(alloc, lists) {
                Ok(lists) => shared_row(alloc, lists, list),
                Err(NoMemory) => Err(NoMemory),
            },
            Err(NoMemory) => Err(NoMemory),
        }
    }

    /// The list of a number, of which no copy is made.
    pub(crate) fn of(alloc: Global, lists: &Rc<SlotLists>, list: u32) -> Result<Slots, NoMemory>
        ensures { IfOk result (λ slots. slots ≡ list_of lists.now.value list) }
    {
        let lists = lists.clone()?;
        shared_row(alloc, lists, list)
    }

    /// The same, of which no copy is made.
    pub(crate) fn shared(&self) -> Result<Slots, NoMemory>
        ensures { IfOk result (λ shared. shared ≡ self.now) }
    {
        let row = self.row.clone()?;
        Ok(Slots { row })
    }

    /// Where the first value of an attribute stands.
    pub(crate) fn place(&self, name: u64) -> Option<SlotPlace>
        ensures { result ≡ placed_in name self.now 0 }
    {
        let row: &SharedSlots = &self.row;
        let lists: &SlotLists = &row.lists;
        lists.place(row.list, name)
    }

    /// Each attribute with its value.
    pub(crate) fn all<'a>(
        &self,
        alloc: Global,
        own: &[AttrValue<'a>],
    ) -> Result<Items<Attribute<'a>>, NoMemory>
        ensures { IfOk result (λ all. all ≡ joined self.now own.now) }
    {
        let row: &SharedSlots = &self.row;
        let lists: &SlotLists = &row.lists;
        all_of(alloc, lists, row.list, own)
    }

    /// The values of the attributes that take bytes, which stand at a place.
    pub(crate) fn read_own<'c, 'a, V: UnitVersion<'a>>(
        &self,
        alloc: Global,
        context: &UnitContext<'c, 'a, V::Index>,
        reader: &mut Reader<'a>,
    ) -> Result<Items<AttrValue<'a>>, ItemFault>
        ensures item { Gives result reader.new
            (own_item (seen V.version V.looked context.now) (own_slots self.now) reader.old) }
        ensures count { IfOk result (λ own. length own ≡ length (own_slots self.now)) }
        ensures stays { OnOk result (Stays reader.old reader.new) }
    {
        let row: &SharedSlots = &self.row;
        let lists: &SlotLists = &row.lists;
        read_own::<V>(alloc, context, lists, row.list, reader)
    }
}

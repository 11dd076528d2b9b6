//! Items that are read from left to right.

ghost use Rattle.std.specs.Prelude.{◌≡◌, ◌-◌, List, OnOk, length};
ghost use Rattle.wasm_bytes.specs.Place.{Place, Read, Moves, Stays};
ghost use Rattle.wasm_bytes.specs.Reading.{u32_item, name_item, sized_run_item, items_from, vector_item, until_end};
ghost use Rattle.wasm_bytes.specs.Reading.{to_end_item, section_item};
ghost use Rattle.wasm_bytes.specs.calls.Answers.{Gives};

use crate::cursor::Cursor;
use crate::faults::ItemFault;
use crate::reader::Reader;
use crate::runs::Run;
use pm_text::{Items, Text};
use std::alloc::Global;

/// A kind of items that are read from left to right. Their values may borrow from the input.
pub trait Item<R: Cursor> {
    type Value: Drop;

    /// The value and the place behind it, or the offset of the first item without a reading.
    ghost item: { Place → Read Self.Value };

    fn read(alloc: Global, reader: &mut R) -> Result<Self::Value, ItemFault>
        ensures item { Gives result (R.place reader.new) (item (R.place reader.old)) }
        ensures moves { OnOk result (Moves (R.place reader.old) (R.place reader.new)) };
}

impl<'a> Item<Reader<'a>> for u32 {
    type Value = u32;

    ghost item = { u32_item };

    fn read(_alloc: Global, reader: &mut Reader<'a>) -> Result<u32, ItemFault> {
        Ok(reader.u32()?)
    }
}

/// A name (Core 5.2.4).
impl<'a> Item<Reader<'a>> for Text {
    type Value = Text;

    ghost item = { name_item };

    fn read(alloc: Global, reader: &mut Reader<'a>) -> Result<Text, ItemFault> {
        let name = reader.name()?;
        Ok(Text::from_str(alloc, name)?)
    }
}

/// A length, and as many bytes.
impl<'a> Item<Reader<'a>> for Run<'a> {
    type Value = Run<'a>;

    ghost item = { sized_run_item };

    fn read(_alloc: Global, reader: &mut Reader<'a>) -> Result<Run<'a>, ItemFault> {
        Ok(Run::new(reader.sized_run()?))
    }
}

fn items_of<R: Cursor, T: Item<R>>(
    alloc: Global,
    count: u32,
    reader: &mut R,
) -> Result<Items<T::Value>, ItemFault>
    ensures item { Gives result (R.place reader.new)
        (items_from T.item count (R.place reader.old)) }
    ensures stays { OnOk result (Stays (R.place reader.old) (R.place reader.new)) }
{
    let mut items = Vec::new(alloc);
    for _ in 0..count {
        items.push(T::read(alloc, reader)?)?;
    }
    Ok(Items::from_vec(items))
}

/// A vector: a count and its elements (Core 5.1.3).
impl<R: Cursor, T: Item<R>> Item<R> for Items<T> {
    type Value = Items<T::Value>;

    ghost item = { vector_item T.item };

    #[tactic(auto, unfolding(crate::specs::Reading::vector_item))]
    fn read(alloc: Global, reader: &mut R) -> Result<Items<T::Value>, ItemFault> {
        let count = reader.count()?;
        items_of::<R, T>(alloc, count, reader)
    }
}

fn items_left<'a, T: Item<Reader<'a>>>(
    alloc: Global,
    reader: &mut Reader<'a>,
) -> Result<Items<T::Value>, ItemFault>
    ensures item { Gives result reader.new
        (until_end T.item (length reader.old.block - reader.old.at) reader.old) }
    ensures stays { OnOk result (Stays reader.old reader.new) }
{
    let mut items = Vec::new(alloc);
    'items: while reader.left() > 0 {
        items.push(T::read(alloc, reader)?)?;
    }
    Ok(Items::from_vec(items))
}

/// Items up to the end of the block.
#[tactic(auto, unfolding(crate::specs::Reading::to_end_item))]
pub fn items_to_end<'a, T: Item<Reader<'a>>>(
    alloc: Global,
    reader: &mut Reader<'a>,
) -> Result<Items<T::Value>, ItemFault>
    ensures item { Gives result reader.new (to_end_item T.item reader.old) }
    ensures stays { OnOk result (Stays reader.old reader.new) }
{
    items_left::<T>(alloc, reader)
}

/// A custom section of this name, and what it holds behind its name (Core 5.5.3).
#[tactic(auto, unfolding(crate::specs::Reading::section_item))]
pub fn named_section<'a, T: Item<Reader<'a>>>(
    alloc: Global,
    title: &[u8],
    reader: &mut Reader<'a>,
) -> Result<T::Value, ItemFault>
    ensures item { Gives result reader.new (section_item title.now T.item reader.old) }
    ensures moves { OnOk result (Moves reader.old reader.new) }
{
    reader.fixed(0)?;
    let mut inner = reader.open()?;
    inner.named(title)?;
    let value = T::read(alloc, &mut inner)?;
    inner.end()?;
    Ok(value)
}

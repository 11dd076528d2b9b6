//! Values that may hold floats, and vectors of them.

ghost use Rattle.std.specs.Prelude.{OnOk};
ghost use Rattle.wasm_bytes.specs.Place.{Place, Read, Moves, Stays};
ghost use Rattle.wasm_bytes.specs.Reading.{steps_from};
ghost use Rattle.wasm_bytes.specs.Notes.{noted_vector_item};
ghost use Rattle.wasm_bytes.specs.calls.Answers.{Gives, with_state};
ghost use Rattle.wasm_bytes.specs.calls.NotedSteps.{noted_step, noted_steps};
ghost use Rattle.wasm_bytes.specs.declared.noted.Noted.{Noted as NotedValue};

use crate::cursor::Cursor;
use crate::faults::ItemFault;
use pm_text::Items;
use std::alloc::Global;

/// A value in which floats stand as integers, and the offset of its first float type or float
/// opcode, in bytes from the first byte of the input.
#[derive(Drop)]
pub struct Noted<T> {
    pub value: T,
    pub float: Option<usize>,
}

/// A kind of values that may hold floats.
pub trait Noting<R: Cursor> {
    type Value: Drop;

    /// The value with its first float and the place behind it, or the offset of the first item
    /// without a reading.
    ghost item: { Place → Read (NotedValue Self.Value) };

    fn read(alloc: Global, reader: &mut R) -> Result<Noted<Self::Value>, ItemFault>
        ensures item { Gives result (R.place reader.new) (item (R.place reader.old)) }
        ensures moves { OnOk result (Moves (R.place reader.old) (R.place reader.new)) };
}

/// One more value.
#[tactic(auto, unfolding(crate::specs::calls::NotedSteps::noted_step))]
fn take_noted<R: Cursor, T: Noting<R>>(
    alloc: Global,
    noted: &mut Noted<Items<T::Value>>,
    reader: &mut R,
) -> Result<(), ItemFault>
    ensures item { Gives (with_state noted.new result) (R.place reader.new)
        (noted_step T.item noted.old (R.place reader.old)) }
    ensures moves { OnOk result (Moves (R.place reader.old) (R.place reader.new)) }
{
    let last = T::read(alloc, reader)?;
    noted.value.push(last.value)?;
    noted.float = noted.float.or(last.float);
    Ok(())
}

fn noted_items<R: Cursor, T: Noting<R>>(
    alloc: Global,
    count: u32,
    noted: &mut Noted<Items<T::Value>>,
    reader: &mut R,
) -> Result<(), ItemFault>
    ensures item { Gives (with_state noted.new result) (R.place reader.new)
        (steps_from (noted_step T.item) count noted.old (R.place reader.old)) }
    ensures stays { OnOk result (Stays (R.place reader.old) (R.place reader.new)) }
{
    for _ in 0..count {
        take_noted::<R, T>(alloc, noted, reader)?;
    }
    Ok(())
}

#[tactic(auto, unfolding(crate::specs::calls::NotedSteps::noted_steps))]
fn noted_elements<R: Cursor, T: Noting<R>>(
    alloc: Global,
    reader: &mut R,
) -> Result<Noted<Items<T::Value>>, ItemFault>
    ensures item { Gives result (R.place reader.new) (noted_steps T.item (R.place reader.old)) }
    ensures moves { OnOk result (Moves (R.place reader.old) (R.place reader.new)) }
{
    let count = reader.count()?;
    let mut noted = Noted {
        value: Items::new(alloc),
        float: None,
    };
    noted_items::<R, T>(alloc, count, &mut noted, reader)?;
    Ok(noted)
}

/// A vector: a count and its elements (Core 5.1.3).
pub fn noted_vector<R: Cursor, T: Noting<R>>(
    alloc: Global,
    reader: &mut R,
) -> Result<Noted<Items<T::Value>>, ItemFault>
    ensures item { Gives result (R.place reader.new)
        (noted_vector_item T.item (R.place reader.old)) }
    ensures moves { OnOk result (Moves (R.place reader.old) (R.place reader.new)) }
{
    noted_elements::<R, T>(alloc, reader)
}

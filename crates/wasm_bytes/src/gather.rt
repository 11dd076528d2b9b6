//! Elements that are read into a state.

ghost use Rattle.std.specs.Prelude.{◌≡◌, ◌-◌, Bool, OnOk, length};
ghost use Rattle.wasm_bytes.specs.Place.{Place, Read, Moves, Stays};
ghost use Rattle.wasm_bytes.specs.Reading.{steps_from, steps_until_end, steps_to_end, steps_until_done};
ghost use Rattle.wasm_bytes.specs.calls.Answers.{Gives, with_state};

use crate::cursor::Cursor;
use crate::faults::ItemFault;
use crate::reader::Reader;
use std::alloc::Global;

/// A state that takes one element after another. What an element may be can depend on those before
/// it.
pub trait Gather<R: Cursor> {
    /// The state with the next element and the place behind that, or the offset of the first item
    /// without a reading.
    ghost step: { Self → Place → Read Self };

    fn take(&mut self, alloc: Global, reader: &mut R) -> Result<(), ItemFault>
        ensures item { Gives (with_state self.new result) (R.place reader.new)
            (step self.old (R.place reader.old)) }
        ensures moves { OnOk result (Moves (R.place reader.old) (R.place reader.new)) };
}

/// A state that says when nothing more is due.
pub trait GatherUntilDone<'a>: Gather<Reader<'a>> {
    ghost done: { Self → Bool };

    fn is_done(&self) -> bool
        ensures { result ≡ done self.now };
}

/// Takes so many elements.
pub fn gather_count<R: Cursor, S: Gather<R>>(
    alloc: Global,
    count: u32,
    state: &mut S,
    reader: &mut R,
) -> Result<(), ItemFault>
    ensures item { Gives (with_state state.new result) (R.place reader.new)
        (steps_from S.step count state.old (R.place reader.old)) }
    ensures stays { OnOk result (Stays (R.place reader.old) (R.place reader.new)) }
{
    for _ in 0..count {
        state.take(alloc, reader)?;
    }
    Ok(())
}

fn gather_left<'a, S: Gather<Reader<'a>>>(
    alloc: Global,
    state: &mut S,
    reader: &mut Reader<'a>,
) -> Result<(), ItemFault>
    ensures item { Gives (with_state state.new result) reader.new
        (steps_until_end S.step (length reader.old.block - reader.old.at) state.old reader.old) }
    ensures stays { OnOk result (Stays reader.old reader.new) }
{
    'elements: while reader.left() > 0 {
        state.take(alloc, reader)?;
    }
    Ok(())
}

/// Takes elements up to the end of the block.
#[tactic(auto, unfolding(crate::specs::Reading::steps_to_end))]
pub fn gather_to_end<'a, S: Gather<Reader<'a>>>(
    alloc: Global,
    state: &mut S,
    reader: &mut Reader<'a>,
) -> Result<(), ItemFault>
    ensures item { Gives (with_state state.new result) reader.new
        (steps_to_end S.step state.old reader.old) }
    ensures stays { OnOk result (Stays reader.old reader.new) }
{
    gather_left(alloc, state, reader)
}

/// Takes elements until nothing more is due.
#[tactic(auto, unfolding(crate::specs::Reading::steps_until_done))]
pub fn gather_until_done<'a, S: GatherUntilDone<'a>>(
    alloc: Global,
    state: &mut S,
    reader: &mut Reader<'a>,
) -> Result<(), ItemFault>
    ensures item { Gives (with_state state.new result) reader.new
        (steps_until_done S.done S.step state.old reader.old) }
    ensures stays { OnOk result (Stays reader.old reader.new) }
{
    'elements: while !state.is_done() {
        // The place is inside its block, so that fewer elements are left behind it.
        let _at = reader.at();
        state.take(alloc, reader)?;
    }
    Ok(())
}

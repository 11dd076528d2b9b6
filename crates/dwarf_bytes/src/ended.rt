//! Lists that an end mark ends.

ghost use Rattle.std.specs.Prelude.{◌-◌, ◌+◌, ◌≡◌, Option, OnOk, length};
ghost use Rattle.wasm_bytes.specs.Place.{Place, Read, Moves, Stays};
ghost use Rattle.wasm_bytes.specs.calls.Answers.{Gives};
ghost use Rattle.dwarf_bytes.specs.Items.{ended_from, ended_item};

use pm_text::Items;
use std::alloc::Global;
use wasm_bytes::{ItemFault, Reader};

/// A type whose values stand in lists that an end mark ends.
pub trait Ended<'a>: Drop {
    /// The next value, or None for the end mark, and the place behind it.
    ghost item: { Place → Read (Option Self) };

    fn read(alloc: Global, reader: &mut Reader<'a>) -> Result<Option<Self>, ItemFault>
        ensures item { Gives result reader.new (item reader.old) }
        ensures moves { OnOk result (Moves reader.old reader.new) };
}

fn ended_left<'a, T: Ended<'a>>(
    alloc: Global,
    reader: &mut Reader<'a>,
) -> Result<Items<T>, ItemFault>
    ensures item { Gives result reader.new
        (ended_from T.item (length reader.old.block + 1 - reader.old.at) reader.old) }
    ensures moves { OnOk result (Moves reader.old reader.new) }
{
    let mut items = Vec::new(alloc);
    'items: loop {
        // The place is inside its block, so that fewer bytes are left behind it.
        let _at = reader.at();
        let Some(item) = T::read(alloc, reader)? else {
            return Ok(Items::from_vec(items));
        };
        items.push(item)?;
    }
}

/// A list that an end mark ends.
#[tactic(auto, unfolding(crate::specs::Items::ended_item))]
pub fn ended_items<'a, T: Ended<'a>>(
    alloc: Global,
    reader: &mut Reader<'a>,
) -> Result<Items<T>, ItemFault>
    ensures item { Gives result reader.new (ended_item T.item reader.old) }
    ensures moves { OnOk result (Moves reader.old reader.new) }
{
    ended_left(alloc, reader)
}

//! Branches, which stand as they are, and `unreachable`.

ghost use Rattle.std.specs.Prelude.{◌≡◌, ℕ, ◌+◌, ◌^◌, ◌<◌, ◌≤◌, Bool, List, length, OnOk};
ghost use Rattle.wasm_syntax.specs.Tree.{Nodes, BrTable, Unreachable, stop, jump};
ghost use Rattle.rewrite_bodies.specs.calls.Landings.{most_landings};
ghost use Rattle.rewrite_bodies.specs.calls.Slots.{Place as PlaceOf};
ghost use Rattle.rewrite_bodies.specs.calls.Rewrite.{control};
ghost use Rattle.rewrite_code.specs.calls.Writing.{EmitsLast};

use crate::Site;
use causes::NoMemory;
use guard_insert::guard_unreachable;
use rewrite_code::{CodeWriter, FunctionContext};
use wasm_syntax::Value;

/// `br_table`. A body whose targets cannot be counted in 32 bits has no room.
pub fn branch_table(
    writer: &mut CodeWriter,
    targets: &[u32],
    default_label: u32,
) -> Result<(), NoMemory>
    ensures { OnOk result (EmitsLast (jump 0 (BrTable targets.now default_label) stop) writer.old
        writer.new) }
{
    if writer.has_room(targets.len()) {
        writer.branch_table(targets, default_label)
    } else {
        Err(NoMemory)
    }
}

/// `unreachable`: the code unwinds with the kind of its trap.
pub fn trap(
    context: &FunctionContext<'_, '_>,
    writer: &mut CodeWriter,
    site: &Site<'_>,
) -> Result<(), NoMemory>
    requires shallow { site.now.labels + most_landings + 1 < 2 ^ 32 }
    requires room { length site.now.places.now ≤ context.now.slots }
    ensures { (passing : Bool) (go : List PlaceOf → Nodes)
        → OnOk result (EmitsLast (control context.now site.now.labels site.now.places.now
        site.now.offset Unreachable passing go) writer.old writer.new) }
{
    guard_unreachable(writer)?;
    writer.open_if(None)?;
    writer.const_value(Value::I32(1))?;
    context.unwind_kind(writer, site.labels, site.places, site.offset)?;
    writer.close()?;
    writer.unreachable()
}

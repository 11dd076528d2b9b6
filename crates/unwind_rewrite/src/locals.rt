//! The locals that a rewritten function declares.

ghost use Rattle.std.specs.Prelude.{◌≡◌, ◌+◌, ◌^◌, ◌<◌, ◌++◌, IfOk, OnOk};
ghost use Rattle.rewrite_bodies.specs.calls.Slots.{group, groups};

use causes::NoMemory;
use pm_text::Items;
use std::alloc::Global;
use wasm_syntax::{LocalGroup, LocalGroups, ValType};

/// So many locals of a type.
fn local_group(count: u32, vtype: ValType) -> LocalGroup
    ensures { result ≡ group count vtype }
{
    LocalGroup { count, vtype }
}

/// The locals that are added behind these for so many heights, those of each type together.
fn push_added(out: &mut Vec<LocalGroup>, slots: u32) -> Result<(), NoMemory>
    requires { slots + 3 < 2 ^ 32 }
    ensures { OnOk result (out.new.items ≡ out.old.items ++ groups slots) }
{
    out.push(local_group(slots + 3, ValType::I32))?;
    out.push(local_group(slots + 2, ValType::I64))?;
    Ok(())
}

/// The locals that a function declares, with those that are added for so many heights.
pub fn with_added(
    alloc: Global,
    declared: &[LocalGroup],
    slots: u32,
) -> Result<LocalGroups, NoMemory>
    requires { slots + 3 < 2 ^ 32 }
    ensures { IfOk result (λ out. out ≡ declared.now ++ groups slots) }
{
    let mut out = Vec::new(alloc);
    out.extend_from_slice(declared)?;
    push_added(&mut out, slots)?;
    Ok(Items::from_vec(out))
}

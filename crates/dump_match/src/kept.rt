//! The groups of locals of functions that have many, without those of no locals. So each frame of
//! such a function takes no longer than its recorded values.

ghost use Rattle.std.specs.Prelude.{◌≡◌, ◌++◌, replicate, IfOk, OnOk};
ghost use Rattle.std.specs.Ordering.{nat_cmp};
ghost use Rattle.std.specs.BTreeMap.{get};
ghost use Rattle.wasm_syntax.specs.declared.module.ModuleParts.{ModuleParts as Module};
ghost use Rattle.wasm_syntax.specs.Module.{declared_locals};
ghost use Rattle.wasm_syntax.specs.Valid.{body_of};
ghost use Rattle.dump_match.specs.Values.{can_be};
ghost use Rattle.dump_match.specs.inner.Kept.{KeepsGroups};

use crate::values::can_be_locals;
use causes::NoMemory;
use dump_format::Frame;
use pm_text::Items;
use std::alloc::Global;
use std::collections::BTreeMap;
use wasm_syntax::{Body, FuncType, LocalGroup, LocalGroups, Seen};
use wasm_validate::Validated;

/// Groups of locals by their functions.
pub type KeptGroups = BTreeMap<u32, LocalGroups>;

/// So many groups more than recorded values are gone through for each frame.
const FEW: usize = 16;

/// Whether a frame with these values would take longer than they do.
fn are_many(groups: &[LocalGroup], values: &[Seen]) -> bool {
    !values.is_empty() && groups.len().saturating_sub(values.len()) > FEW
}

/// Adds a group, if it has locals.
fn push_filled(filled: &mut LocalGroups, group: LocalGroup) -> Result<(), NoMemory>
    ensures { OnOk result (declared_locals filled.new
        ≡ declared_locals filled.old ++ replicate group.count group.vtype) }
{
    if group.count == 0 {
        return Ok(());
    }
    filled.push(group)?;
    Ok(())
}

/// The groups that have locals.
fn filled_groups(alloc: Global, groups: &[LocalGroup]) -> Result<LocalGroups, NoMemory>
    ensures { IfOk result (λ filled. declared_locals filled ≡ declared_locals groups.now) }
{
    let mut filled = Items::new(alloc);
    for group in groups {
        push_filled(&mut filled, *group)?;
    }
    Ok(filled)
}

/// Keeps the groups of a function.
fn keep(
    alloc: Global,
    function: u32,
    groups: &[LocalGroup],
    kept: &mut KeptGroups,
) -> Result<(), NoMemory>
    ensures { OnOk result ((m : Module) (body : Body) → body_of m function ≡ Some body
        → body.groups ≡ groups.now → KeepsGroups m (get nat_cmp kept.old)
        → KeepsGroups m (get nat_cmp kept.new)) }
{
    let filled = filled_groups(alloc, groups)?;
    kept.insert(function, filled)?;
    Ok(())
}

/// Keeps the groups of a frame's function, where they are many and not kept yet.
fn keep_of(
    alloc: Global,
    m: &Validated,
    frame: &Frame,
    kept: &mut KeptGroups,
) -> Result<(), NoMemory>
    requires { KeepsGroups m.now (get nat_cmp kept.old) }
    ensures { OnOk result (KeepsGroups m.now (get nat_cmp kept.new)) }
{
    let function = frame.function;
    let Some(body) = m.module().parts().body_of(function) else {
        return Ok(());
    };
    let groups = body.groups.as_slice();
    if !are_many(groups, frame.locals.as_slice()) || kept.contains_key(&function) {
        return Ok(());
    }
    keep(alloc, function, groups, kept)
}

/// The groups of the functions of all frames, where they are many.
fn groups_of(alloc: Global, m: &Validated, frames: &[Frame]) -> Result<KeptGroups, NoMemory>
    ensures { IfOk result (λ kept. KeepsGroups m.now (get nat_cmp kept)) }
{
    let mut kept = BTreeMap::new(alloc);
    for frame in frames {
        keep_of(alloc, m, frame, &mut kept)?;
    }
    Ok(kept)
}

/// The same, or none for want of memory: then each frame takes as long as its function has groups.
pub fn kept_groups(alloc: Global, m: &Validated, frames: &[Frame]) -> KeptGroups
    ensures { KeepsGroups m.now (get nat_cmp result) }
{
    match groups_of(alloc, m, frames) {
        Ok(kept) => kept,
        Err(_) => BTreeMap::new(alloc),
    }
}

/// Whether the recorded values of a frame can be the locals of its function, which has this type and
/// this body.
pub fn can_be_locals_of(kept: &KeptGroups, ftype: &FuncType, body: &Body, frame: &Frame) -> bool
    ensures { (m : Module) → KeepsGroups m (get nat_cmp kept.now)
        → body_of m frame.now.function ≡ Some body.now
        → result ≡ can_be (ftype.now.params ++ declared_locals body.now.groups) frame.now.locals }
{
    let params = ftype.params.as_slice();
    let values = frame.locals.as_slice();
    match kept.get(&frame.function) {
        Some(groups) => can_be_locals(params, groups.as_slice(), values),
        None => can_be_locals(params, body.groups.as_slice(), values),
    }
}

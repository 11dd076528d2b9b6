//! The types of a function's locals.

ghost use Rattle.std.specs.Prelude.{◌≡◌, ◌++◌, replicate, IfOk, OnOk};
ghost use Rattle.wasm_syntax.specs.Module.{declared_locals};

use causes::NoMemory;
use pm_text::Items;
use std::alloc::Global;
use wasm_syntax::{LocalGroup, ValType};

/// So many locals of one type.
fn push_group(types: &mut Items<ValType>, group: LocalGroup) -> Result<(), NoMemory>
    ensures { OnOk result (types.new ≡ types.old ++ replicate group.count group.vtype) }
{
    for _i in 0..group.count {
        types.push(group.vtype)?;
    }
    Ok(())
}

/// The types of the parameters, and of the locals that are declared behind them.
pub(crate) fn local_types(
    alloc: Global,
    params: &[ValType],
    groups: &[LocalGroup],
) -> Result<Items<ValType>, NoMemory>
    ensures { IfOk result (λ types. types ≡ params.now ++ declared_locals groups.now) }
{
    let mut types = Items::from_slice(alloc, params)?;
    for group in groups {
        push_group(&mut types, *group)?;
    }
    Ok(types)
}

//! The numbers of a list of types.

ghost use Rattle.std.specs.Prelude.{◌≡◌, ◌≤◌, length, IfOk};
ghost use Rattle.machine_code.specs.inner.Numbers.{AllNumbered};

use crate::tree::{new_tree, number};
use causes::NoMemory;
use pm_text::Items;
use std::alloc::Global;
use wasm_syntax::FuncType;

/// A number for each type, the same one exactly for types that are the same by structure.
pub(crate) fn number_types(alloc: Global, types: &[FuncType]) -> Result<Items<usize>, NoMemory>
    ensures { IfOk result (AllNumbered types.now) }
{
    let mut nodes = new_tree(alloc)?;
    let mut numbers = Vec::new(alloc);
    for ftype in types {
        let n = number(&mut nodes, ftype)?;
        numbers.push(n)?;
    }
    Ok(Items::from_vec(numbers))
}

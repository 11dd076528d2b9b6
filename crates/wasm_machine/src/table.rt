//! The table of an instance, filled in place.

ghost use Rattle.std.specs.Prelude.{◌≡◌, length, map, fold, IfOk, None};
ghost use Rattle.wasm_syntax.specs.Run.{element_fits, table_min as least_table, first_false};
ghost use Rattle.wasm_syntax.specs.Run.{start_table as table_at_start};
ghost use Rattle.wasm_syntax.specs.calls.Starting.{put_element};

use causes::NoMemory;
use pm_text::Items;
use std::alloc::Global;
use wasm_syntax::{ModuleParts, put_functions};

/// Puts the functions of all element segments into a table, in the order of the segments.
fn fill_table(table: &mut [Option<u32>], m: &ModuleParts)
    requires size { length table.old ≡ least_table m.now.tables }
    requires fits { first_false 0 (map (element_fits m.now) m.now.elements) ≡ None }
    ensures { table.new ≡ fold (put_element m.now) table.old m.now.elements }
{
    let elements = m.elements.as_slice();
    for element in elements {
        let at = m.element_at(element) as usize;
        put_functions(table, at, element.functions.as_slice());
    }
}

/// The table with the functions of all element segments.
pub(crate) fn start_table(alloc: Global, m: &ModuleParts) -> Result<Items<Option<u32>>, NoMemory>
    requires fits { first_false 0 (map (element_fits m.now) m.now.elements) ≡ None }
    ensures { IfOk result (λ table. table ≡ table_at_start m.now) }
{
    let mut table = Vec::from_elem(alloc, None, m.table_min() as usize)?;
    fill_table(&mut table, m);
    Ok(Items::from_vec(table))
}

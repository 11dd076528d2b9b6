//! The table where an instance starts (Core 4.5.4), as far as its first size. A segment may pass
//! the end, and then no instance starts.

ghost use Rattle.std.specs.Prelude.{◌≡◌, replicate, take, IfOk, None};
ghost use Rattle.wasm_syntax.specs.Run.{table_min as least_table};
ghost use Rattle.rewrite_bodies.specs.calls.Guards.{first_table};
ghost use Rattle.instrument.specs.inner.Tables.{put_inside};

use causes::NoMemory;
use pm_text::Items;
use std::alloc::Global;
use wasm_syntax::{ModuleParts, put_functions};

/// At most so many functions, the first ones.
fn first(functions: &[u32], count: usize) -> &[u32]
    ensures { result.now ≡ take count functions.now }
{
    &functions[..functions.len().min(count)]
}

/// Puts those functions into a table, from a place on, that lie inside.
fn put_inside(table: &mut [Option<u32>], at: usize, functions: &[u32])
    ensures { table.new ≡ put_inside table.old at functions.now }
{
    let size = table.len();
    if at < size {
        let inside = first(functions, size - at);
        put_functions(table, at, inside);
    }
}

/// Puts the functions of all element segments into a table, in the order of the segments.
fn fill(table: &mut [Option<u32>], m: &ModuleParts)
    requires { table.old ≡ replicate (least_table m.now.tables) None }
    ensures { table.new ≡ first_table m.now }
{
    let elements = m.elements.as_slice();
    for element in elements {
        let at = m.element_at(element) as usize;
        put_inside(table, at, element.functions.as_slice());
    }
}

/// The table with the functions of all element segments.
pub(crate) fn first_table(alloc: Global, m: &ModuleParts) -> Result<Items<Option<u32>>, NoMemory>
    ensures { IfOk result (λ table. table ≡ first_table m.now) }
{
    let mut table = Vec::from_elem(alloc, None, m.table_min() as usize)?;
    fill(&mut table, m);
    Ok(Items::from_vec(table))
}

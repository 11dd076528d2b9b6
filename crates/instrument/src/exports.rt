//! The exports of the rewritten module.

ghost use Rattle.std.specs.Prelude.{◌≡◌, ◌++◌, codes, length, IfOk, OnOk};
ghost use Rattle.wasm_syntax.specs.declared.parts.ExportKind.TheVariants.{Memory};
ghost use Rattle.rewrite_modules.specs.Collector.{memory_export};
ghost use Rattle.rewrite_modules.specs.calls.Instrument.{new_exports};
ghost use Rattle.instrument.specs.inner.Parts.{renumbered};

use causes::NoMemory;
use index_map::IndexMap;
use pm_text::{Items, Text};
use std::alloc::Global;
use wasm_syntax::{Export, ExportKind, Exports, LimitsList};

/// The exports with other indices.
fn renumbered(alloc: Global, exports: &[Export], indices: &[u32]) -> Result<Exports, NoMemory>
    requires { length exports.now ≡ length indices.now }
    ensures { IfOk result (λ out. out ≡ renumbered exports.now indices.now) }
{
    let mut out = Items::new(alloc);
    for i in 0..exports.len() {
        let export = &exports[i];
        out.push(Export {
            name: Text::from_str(alloc, export.name.as_str())?,
            kind: export.kind,
            index: indices[i],
        })?;
    }
    Ok(out)
}

/// The export of the memory.
fn memory_export(alloc: Global) -> Result<Export, NoMemory>
    ensures { IfOk result (λ export. export ≡ record {
      name = codes "coredump.memory";
      kind = Memory;
      index = 0;
    }) }
{
    Ok(Export {
        name: Text::from_str(alloc, "coredump.memory")?,
        kind: ExportKind::Memory,
        index: 0,
    })
}

/// Adds the export of the memory, where there is one.
fn push_memory(alloc: Global, out: &mut Exports, memories: &LimitsList) -> Result<(), NoMemory>
    ensures { OnOk result (out.new ≡ out.old ++ memory_export memories.now) }
{
    if memories.is_empty() {
        return Ok(());
    }
    let export = memory_export(alloc)?;
    out.push(export)?;
    Ok(())
}

/// The exports of the module, those of functions that it defines with the indices of their
/// wrappers, and behind them its memory.
pub(crate) fn new_exports(alloc: Global, numbers: &IndexMap<'_>) -> Result<Exports, NoMemory>
    ensures { IfOk result (λ exports. exports
        ≡ new_exports numbers.now 0 numbers.now.exports ++ memory_export numbers.now.memories) }
{
    let parts = numbers.source();
    let mut exports = renumbered(alloc, parts.exports.as_slice(), numbers.exports())?;
    push_memory(alloc, &mut exports, &parts.memories)?;
    Ok(exports)
}

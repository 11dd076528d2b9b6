//! Exports, whose names are distinct. They are looked up in their order, so that no choice of names
//! makes the search slow.

ghost use Rattle.std.specs.Prelude.{◌≡◌, ◌<◌, ◌+◌, ◌^◌, length, IfOk};
ghost use Rattle.wasm_syntax.specs.Valid.{ExportFine, index_space};
ghost use Rattle.wasm_validate.specs.inner.Places.{FirstBad};

use causes::NoMemory;
use std::alloc::Global;
use std::collections::BTreeMap;
use wasm_syntax::{ExportKind, ModuleParts};

/// How many things of a kind there are.
fn index_space_of(m: &ModuleParts, kind: ExportKind) -> usize
    requires { length m.now.imports + length m.now.functions < 2 ^ 32 }
    ensures { result ≡ index_space m.now kind }
{
    match kind {
        ExportKind::Function => m.imports.len() + m.functions.len(),
        ExportKind::Table => m.tables.len(),
        ExportKind::Memory => m.memories.len(),
        ExportKind::Global => m.globals.len(),
    }
}

/// The first export that is not fine: what it names is not there, or an earlier export has its
/// name.
pub fn bad_export(alloc: Global, m: &ModuleParts) -> Result<Option<u32>, NoMemory>
    requires few { length m.now.exports < 2 ^ 32 }
    requires functions { length m.now.imports + length m.now.functions < 2 ^ 32 }
    ensures { IfOk result (λ found. FirstBad m.now.exports (ExportFine m.now) found) }
{
    let exports = m.exports.as_slice();
    let mut names = BTreeMap::new(alloc);
    let mut i = 0u32;
    while (i as usize) < exports.len() {
        let export = &exports[i as usize];
        if (export.index as usize) >= index_space_of(m, export.kind) {
            return Ok(Some(i));
        }
        match names.insert(export.name.as_str(), i)? {
            Some(_) => return Ok(Some(i)),
            None => {}
        }
        i += 1;
    }
    Ok(None)
}

//! Copies of the parts of a module.

ghost use Rattle.std.specs.Prelude.{◌≡◌, IfOk};

use causes::NoMemory;
use pm_text::{Items, Text};
use std::alloc::Global;
use wasm_syntax::{Body, DataSeg, FuncType, Global as GlobalPart, Import};

/// What can be copied.
pub(crate) trait Duplicate: Drop {
    fn duplicate(&self, alloc: Global) -> Result<Self, NoMemory>
        ensures { IfOk result (λ copy. copy ≡ self.now) };
}

/// A copy of a list.
pub(crate) fn duplicates<T: Duplicate>(
    alloc: Global,
    items: &Items<T>,
) -> Result<Items<T>, NoMemory>
    ensures { IfOk result (λ copies. copies ≡ items.now) }
{
    let mut copies = Items::new(alloc);
    for item in items.as_slice() {
        copies.push(item.duplicate(alloc)?)?;
    }
    Ok(copies)
}

impl Duplicate for FuncType {
    fn duplicate(&self, alloc: Global) -> Result<Self, NoMemory> {
        Ok(FuncType {
            params: Items::from_slice(alloc, self.params.as_slice())?,
            results: Items::from_slice(alloc, self.results.as_slice())?,
        })
    }
}

impl Duplicate for Import {
    fn duplicate(&self, alloc: Global) -> Result<Self, NoMemory> {
        Ok(Import {
            module: Text::from_str(alloc, self.module.as_str())?,
            name: Text::from_str(alloc, self.name.as_str())?,
            ftype: self.ftype,
        })
    }
}

impl Duplicate for Body {
    fn duplicate(&self, alloc: Global) -> Result<Self, NoMemory> {
        Ok(Body {
            groups: Items::from_slice(alloc, self.groups.as_slice())?,
            ops: Items::from_slice(alloc, self.ops.as_slice())?,
            targets: Items::from_slice(alloc, self.targets.as_slice())?,
            start: self.start,
        })
    }
}

impl Duplicate for GlobalPart {
    fn duplicate(&self, alloc: Global) -> Result<Self, NoMemory> {
        Ok(GlobalPart {
            vtype: self.vtype,
            mutable: self.mutable,
            init: self.init.duplicate(alloc)?,
        })
    }
}

impl Duplicate for DataSeg {
    fn duplicate(&self, alloc: Global) -> Result<Self, NoMemory> {
        Ok(DataSeg {
            memory: self.memory,
            bytes: Items::from_slice(alloc, self.bytes.as_slice())?,
            offset: self.offset.duplicate(alloc)?,
        })
    }
}

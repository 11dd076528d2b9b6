//! Why a module is not rewritten.

ghost use Rattle.std.specs.Prelude.{◌≡◌};
ghost use Rattle.wasm_syntax.specs.Module.{IsModule};
ghost use Rattle.wasm_syntax.specs.Sizes.{WithinLimits};
ghost use Rattle.wasm_syntax.specs.Valid.{Valid};
ghost use Rattle.wasm_format_laws.specs.calls.Sized.{Sized};
ghost use Rattle.instrument.specs.Refusal.{Decided, OwnHeights};
ghost use Rattle.instrument.specs.declared.refusal.InstrFault.TheVariants as faults;

use crate::accesses::offsets_are_small;
use causes::NoMemory;
use index_map::{IndexMap, export_collision, first_excess, import_collision};
use std::alloc::Global;
use wasm_syntax::{Heights, Module, Quantity};

/// Why a module is not rewritten, the first cause in this order: the first import from the
/// collector's module; the export that has the name under which the memory is exported; the first
/// quantity that passes its greatest number, and how much there is of it. Or memory is wanting.
#[derive(Clone, Copy)]
pub enum InstrFault {
    ImportCollision { index: u32 },
    ExportCollision { index: u32 },
    Limit { what: Quantity, count: u64 },
    NoMemory,
}

impl From<NoMemory> for InstrFault {
    ghost from_gives = { λ _ e. e ≡ faults.NoMemory };

    fn from(_error: NoMemory) -> Self {
        InstrFault::NoMemory
    }
}

/// What the type of a module keeps.
fn is_whole(source: &Module)
    ensures { IsModule source.now }
{
    let _ = source.parts();
}

/// The numbers of the rewriting of a module, or the first cause why it is not rewritten. The module
/// is valid and within the limits of the decoder and of validation, and its operand heights are
/// these; its lengths are those of a spelling.
pub fn admitted<'a>(
    alloc: Global,
    source: &'a Module,
    heights: &Heights,
) -> Result<IndexMap<'a>, InstrFault>
    requires valid { Valid source.now }
    requires limits { WithinLimits source.now }
    requires sized { Sized source.now }
    requires heights { OwnHeights source.now heights.now }
    ensures { Decided result source.now heights.now }
{
    if let Some(index) = import_collision(source) {
        return Err(InstrFault::ImportCollision { index });
    }
    if let Some(index) = export_collision(source) {
        return Err(InstrFault::ExportCollision { index });
    }
    is_whole(source);
    offsets_are_small(source);
    match IndexMap::new(alloc, source) {
        Ok(numbers) => match first_excess(&numbers, heights) {
            Some(excess) => Err(InstrFault::Limit {
                what: excess.what,
                count: excess.count,
            }),
            None => Ok(numbers),
        },
        Err(NoMemory) => Err(InstrFault::NoMemory),
    }
}

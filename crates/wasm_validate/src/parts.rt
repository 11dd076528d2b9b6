//! The parts of a module that are judged by themselves.

ghost use Rattle.std.specs.Prelude.{◌≡◌, ◌<◌, ◌≤◌, ◌^◌, ◌+◌, ℕ, length, slice_get, None, Some, IfSome};
ghost use Rattle.wasm_syntax.specs.Valid.{AtIndex, FuncTypeFine, ImportFine, DeclarationFine, LimitsFine, GlobalFine};
ghost use Rattle.wasm_syntax.specs.Valid.{ElementFine, DataFine, StartFine};
ghost use Rattle.wasm_syntax.specs.Module.{function_types};
ghost use Rattle.wasm_validate.specs.calls.Deciding.{Decides};
ghost use Rattle.wasm_validate.specs.inner.Places.{FirstBad, OneFine};

use crate::expressions::is_const_body;
use crate::first::Part;
use pm_text::Items;
use wasm_syntax::{DataSeg, ElementSeg, FuncType, Global, Import, Limits, ModuleParts, ValType};

impl Part for FuncType {
    ghost fine = { λ m i t. FuncTypeFine t };

    fn is_fine(&self, _m: &ModuleParts, _at: usize) -> bool {
        self.results.len() <= 1
    }
}

impl Part for Import {
    ghost fine = { λ m i x. ImportFine m x };

    fn is_fine(&self, m: &ModuleParts, _at: usize) -> bool {
        (self.ftype as usize) < m.types.len()
    }
}

/// The type index of a function.
impl Part for u32 {
    ghost fine = { λ m i t. DeclarationFine m t };

    fn is_fine(&self, m: &ModuleParts, _at: usize) -> bool {
        (*self as usize) < m.types.len()
    }
}

impl Part for Global {
    ghost fine = { λ m i g. GlobalFine g };

    fn is_fine(&self, _m: &ModuleParts, _at: usize) -> bool {
        is_const_body(&[], &self.init, self.vtype)
    }
}

impl Part for DataSeg {
    ghost fine = { λ m i s. DataFine m s };

    fn is_fine(&self, m: &ModuleParts, _at: usize) -> bool {
        (self.memory as usize) < m.memories.len()
            && is_const_body(m.globals.as_slice(), &self.offset, ValType::I32)
    }
}

/// Whether each index is below a number.
fn are_below(indices: &[u32], count: u64) -> bool
    ensures { Decides result (AtIndex indices.now (λ _ f. f < count)) }
{
    let mut i = 0;
    while i < indices.len() {
        if u64::from(indices[i]) >= count {
            return false;
        }
        i += 1;
    }
    true
}

impl Part for ElementSeg {
    ghost fine = { λ m i e. ElementFine m e };

    fn is_fine(&self, m: &ModuleParts, _at: usize) -> bool {
        let count = m.imports.len() as u64 + m.functions.len() as u64;
        (self.table as usize) < m.tables.len()
            && is_const_body(m.globals.as_slice(), &self.offset, ValType::I32)
            && are_below(self.functions.as_slice(), count)
    }
}

/// Whether limits are within a range (Core 3.2.1).
fn are_limits_fine(most: u64, l: Limits) -> bool
    ensures { Decides result (LimitsFine most l) }
{
    if u64::from(l.min) > most {
        return false;
    }
    match l.max {
        Some(max) => {
            if u64::from(max) > most {
                return false;
            }
            if l.min > max {
                return false;
            }
            true
        }
        None => true,
    }
}

/// The limits of the first table or memory.
fn first_of(list: &Items<Limits>) -> Option<Limits>
    ensures { result ≡ slice_get list.now 0 }
{
    list.as_slice().get(0).copied()
}

/// The second of a list of tables or memories, which may not be there, where the first one is fine.
fn bad_second(list: &Items<Limits>, most: u64, first: Limits) -> Option<u32>
    requires first { slice_get list.now 0 ≡ Some first }
    requires fine { LimitsFine most first }
    ensures { FirstBad list.now (OneFine most) result }
{
    if list.len() > 1 {
        return Some(1);
    }
    None
}

/// The first of a list of tables or memories that is not fine: its limits pass a number, or it is
/// not the only one.
pub fn first_bad_limits(list: &Items<Limits>, most: u64) -> Option<u32>
    ensures { FirstBad list.now (OneFine most) result }
{
    match first_of(list) {
        Some(first) => if are_limits_fine(most, first) {
            bad_second(list, most, first)
        } else {
            Some(0)
        },
        None => None,
    }
}

/// Whether the start function is fine, where there is one.
pub fn is_start_fine(m: &ModuleParts) -> bool
    ensures { Decides result (IfSome m.now.start (StartFine m.now)) }
{
    match m.start {
        Some(f) => match m.type_of(f as usize) {
            Some(t) => t.params.is_empty() && t.results.is_empty(),
            None => false,
        },
        None => true,
    }
}

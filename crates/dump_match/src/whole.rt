//! The tests of a whole dump: its instance, its memory and its globals.

ghost use Rattle.std.specs.Prelude.{◌≡◌, ◌≢◌, ◌≤◌, ◌<◌, ◌⊎◌, ◌∷◌, [], All, None, length, min, unwrap_or, slice_get};
ghost use Rattle.std.specs.Prelude.{option_copied};
ghost use Rattle.wasm_syntax.specs.Sizes.{WithinLimits};
ghost use Rattle.dump_match.specs.Matching.{OneInstance, MemoryFits, GlobalFits, IsOfGlobal, BothHave};
ghost use Rattle.dump_match.specs.Matching.{global_of as recorded};
ghost use Rattle.wasm_validate.specs.calls.Deciding.{Decides};
ghost use Rattle.dump_match.specs.inner.Decides.{InstanceFound, GlobalsFound, WholeJudged};

use crate::mismatch::Mismatch;
use dump_format::{Dump, Frame, Instance};
use wasm_syntax::{Global, Limits, ModuleParts, Value};

/// The most pages of a memory.
const MOST_PAGES: u32 = 4096;

/// Whether an instance has at most one memory, that of the dump.
fn names_memory(memories: &[u32], memory: Option<u32>) -> bool
    ensures { Decides result ((memories.now ≡ []) ⊎ ((memories.now ≡ 0 ∷ []) × (memory ≢ None))) }
{
    match memories {
        [] => true,
        [index] => *index == 0 && memory.is_some(),
        _ => false,
    }
}

fn are_below(indices: &[u32], count: usize) -> bool
    ensures { Decides result (All (λ g. g < count) indices.now) }
{
    indices.iter().all(|index| (*index as usize) < count)
}

fn are_of_first(frames: &[Frame]) -> bool
    ensures { Decides result (All (λ f. f.instance ≡ 0) frames.now) }
{
    frames.iter().all(|frame| frame.instance == 0)
}

/// Whether the only instance has its parts in range, and all frames are of it.
fn is_whole(dump: &Dump<'_>, one: &Instance) -> bool
    requires { dump.now.instances ≡ one.now ∷ [] }
    ensures { Decides result (OneInstance dump.now one.now) }
{
    (one.module as usize) < dump.modules.len()
        && names_memory(one.memories.as_slice(), dump.memory)
        && are_below(one.globals.as_slice(), dump.globals.len())
        && are_of_first(dump.frames.as_slice())
}

/// The only instance, where its parts are in range and all frames are of it.
fn one_instance<'a>(dump: &'a Dump<'_>) -> Option<&'a Instance>
    ensures { InstanceFound (option_copied result) dump.now }
{
    match dump.instances.as_slice() {
        [one] => if is_whole(dump, one) { Some(one) } else { None },
        _ => None,
    }
}

fn size_fits(limits: Limits, pages: u32) -> bool
    ensures { Decides result ((limits.min ≤ pages)
        × (pages ≤ min 4096 (unwrap_or limits.max 4096))) }
{
    let most = limits.max.unwrap_or(MOST_PAGES).min(MOST_PAGES);
    limits.min <= pages && pages <= most
}

/// Whether the memory, if it is recorded, has a size that the module's can have.
fn memory_fits(m: &ModuleParts, dump: &Dump<'_>, one: &Instance) -> bool
    ensures { Decides result (MemoryFits m.now dump.now one.now) }
{
    if one.memories.is_empty() {
        return true;
    }
    match (m.memories.get(0).copied(), dump.memory) {
        (Some(limits), Some(pages)) => size_fits(limits, pages),
        _ => false,
    }
}

/// The recorded global of an index.
fn global_of(dump: &Dump<'_>, one: &Instance, i: usize) -> Option<Value>
    ensures { result ≡ recorded dump.now one.now i }
{
    match one.globals.get(i).copied() {
        Some(index) => dump.globals.get(index as usize).copied(),
        None => None,
    }
}

fn is_of_global(value: Value, global: &Global) -> bool
    ensures { Decides result (IsOfGlobal value global.now) }
{
    if value.type_of() != global.vtype {
        return false;
    }
    if global.mutable {
        return true;
    }
    match global.literal() {
        Some(first) => first == value,
        None => false,
    }
}

/// Whether a recorded global and one of the module agree, which may both not be there.
fn both_have(m: &ModuleParts, dump: &Dump<'_>, one: &Instance, i: usize) -> bool
    ensures { Decides result (BothHave (recorded dump.now one.now i) (slice_get m.now.globals i)) }
{
    match (global_of(dump, one, i), m.globals.get(i)) {
        (None, None) => true,
        (Some(value), Some(global)) => is_of_global(value, global),
        _ => false,
    }
}

/// The first index at which the recorded globals are not those of the module.
fn first_wrong_global(m: &ModuleParts, dump: &Dump<'_>, one: &Instance) -> Option<u32>
    requires limits { WithinLimits m.now }
    requires one { OneInstance dump.now one.now }
    ensures { GlobalsFound result m.now dump.now one.now }
{
    if one.globals.is_empty() {
        return None;
    }
    for i in 0..m.globals.len() + 1 {
        if !both_have(m, dump, one, i) {
            return Some(i as u32);
        }
    }
    None
}

/// The tests of a whole dump.
pub fn judge_whole(m: &ModuleParts, dump: &Dump<'_>) -> Result<(), Mismatch>
    requires { WithinLimits m.now }
    ensures { WholeJudged result m.now dump.now }
{
    let Some(one) = one_instance(dump) else {
        return Err(Mismatch::Instance);
    };
    if !memory_fits(m, dump, one) {
        return Err(Mismatch::Memory);
    }
    match first_wrong_global(m, dump, one) {
        Some(index) => Err(Mismatch::Global { index }),
        None => Ok(()),
    }
}

//! A call through the table (Core 4.4.5).

ghost use Rattle.std.specs.Prelude.{◌≡◌, ℕ, slice_get, Some};
ghost use Rattle.wasm_syntax.specs.Machine.{Engine};
ghost use Rattle.wasm_syntax.specs.Host.{World};
ghost use Rattle.machine_code.specs.calls.Prepares.{Numbered};
ghost use Rattle.machine_steps.specs.inner.Entries.{EntryFits};

use machine_basics::TrapKind;
use machine_code::Prepared;
use pm_text::Items;

/// What an entry of the table leads to.
#[derive(Clone, Copy)]
pub(crate) enum Entry {
    Function(usize),
    Trap(TrapKind),
    Stuck,
}

fn element(table: &[Option<u32>], index: u32) -> Option<Option<u32>>
    ensures { result ≡ slice_get table.now index }
{
    table.get(index as usize).copied()
}

/// The function in an entry of the table, where it has the type that is asked for.
pub(crate) fn resolve(prepared: &Prepared, table: &[Option<u32>], t: usize, index: u32) -> Entry
    ensures { (engine : Engine) (w : World)
        → Numbered engine.program.module_ prepared.now.type_numbers prepared.now.function_numbers
        → w.table ≡ table.now → EntryFits engine w t index result }
{
    match element(table, index) {
        None => Entry::Trap(TrapKind::UndefinedElement),
        Some(None) => Entry::Trap(TrapKind::UninitializedElement),
        Some(Some(function)) => of_type(prepared, t, function as usize),
    }
}

fn number_at(numbers: &Items<usize>, index: usize) -> Option<usize>
    ensures { result ≡ slice_get numbers.now index }
{
    numbers.get(index).copied()
}

/// The function, where its type is the one of this index.
fn of_type(prepared: &Prepared, t: usize, function: usize) -> Entry
    ensures { (engine : Engine) (w : World) (index : ℕ)
        → Numbered engine.program.module_ prepared.now.type_numbers prepared.now.function_numbers
        → slice_get w.table index ≡ Some (Some function) → EntryFits engine w t index result }
{
    match number_at(&prepared.type_numbers, t) {
        Some(wanted) => match number_at(&prepared.function_numbers, function) {
            Some(number) => {
                if number == wanted {
                    Entry::Function(function)
                } else {
                    Entry::Trap(TrapKind::TypeMismatch)
                }
            }
            None => Entry::Stuck,
        },
        None => Entry::Stuck,
    }
}

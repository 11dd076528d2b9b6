//! The instructions of a function by their operand heights.

ghost use Rattle.std.specs.Prelude.{◌≡◌, ◌<◌, ◌+◌, ◌^◌, ℕ, List, [], ◌∷◌, ◌++◌, length, slice_get, slice_set, IfOk};
ghost use Rattle.std.specs.Prelude.{OnOk, Some};
ghost use Rattle.validate_body.specs.declared.marks.Mark.{Mark as MarkThere};
ghost use Rattle.wasm_validate.specs.calls.Operands.{Ascends, UpTo, AreRows, LastOf, FewMarks, RowsUpTo};

use crate::limit::{mark_in, marks_in};
use causes::NoMemory;
use pm_text::Items;
use std::alloc::Global;
use validate_body::{Mark, Marks};
use wasm_syntax::ValType;

/// For each operand height the instructions of a function that have it, ascending. Those in dead
/// code have none.
pub type Rows = Items<Items<u32>>;

/// Adds rows without instructions, so that there is one for a height.
fn reach(alloc: Global, rows: &mut Vec<Items<u32>>, height: usize) -> Result<(), NoMemory>
    ensures reached { OnOk result (height < length rows.new.items) }
    ensures same { (marks : List _) (n : ℕ) → AreRows rows.old.items marks n
        → OnOk result (AreRows rows.new.items marks n) }
{
    while rows.len() <= height {
        rows.push(Items::new(alloc))?;
    }
    Ok(())
}

/// Adds an instruction to a row.
fn add(rows: &mut Vec<Items<u32>>, height: usize, op: u32) -> Result<(), NoMemory>
    requires { height < length rows.old.items }
    ensures { (row : List ℕ) → slice_get rows.old.items height ≡ Some row
        → OnOk result (rows.new.items ≡ slice_set rows.old.items height (row ++ op ∷ [])) }
{
    rows[height].push(op)?;
    Ok(())
}

/// Adds the next instruction to the row of its height.
fn enter(
    alloc: Global,
    rows: &mut Vec<Items<u32>>,
    mark: Option<Mark>,
    op: u32,
) -> Result<(), NoMemory>
    ensures { (marks : List _) → slice_get marks op ≡ Some mark → AreRows rows.old.items marks op
        → OnOk result (AreRows rows.new.items marks (op + 1)) }
{
    match mark {
        Some(mark) => {
            reach(alloc, rows, mark.height)?;
            add(rows, mark.height, op)
        }
        None => Ok(()),
    }
}

/// The instructions of a function by their heights.
fn rows_of(alloc: Global, marks: &[Option<Mark>]) -> Result<Rows, NoMemory>
    requires { length marks.now < 2 ^ 32 }
    ensures { IfOk result (λ rows. AreRows rows marks.now (length marks.now)) }
{
    let mut rows = Vec::new(alloc);
    let mut i = 0u32;
    while (i as usize) < marks.len() {
        enter(alloc, &mut rows, mark_in(marks, i as usize), i)?;
        i += 1;
    }
    Ok(Items::from_vec(rows))
}

/// The instructions of all functions by their heights.
pub fn rows_of_all(alloc: Global, all: &[Marks]) -> Result<Items<Rows>, NoMemory>
    requires { FewMarks all.now }
    ensures { IfOk result (λ rows. RowsUpTo rows all.now (length all.now)) }
{
    let mut every = Items::new(alloc);
    let mut i = 0;
    while i < all.len() {
        every.push(rows_of(alloc, marks_in(all, i))?)?;
        i += 1;
    }
    Ok(every)
}

/// The last instruction of a row up to one, with it.
fn last_in(row: &[u32], op: u32) -> Option<u32>
    requires { Ascends row.now }
    ensures { UpTo result row.now op }
{
    let count = row.partition_point(|i| *i <= op);
    if count == 0 {
        return None;
    }
    Some(row[count - 1])
}

/// The topmost type that a mark shows.
fn top_in(marks: &[Option<Mark>], i: u32) -> Option<ValType>
    ensures { (mark : MarkThere) → slice_get marks.now i ≡ Some (Some mark) → result ≡ mark.top }
{
    match marks.get(i as usize).copied() {
        Some(Some(mark)) => mark.top,
        _ => None,
    }
}

/// The topmost type before the last instruction up to one that has a height.
pub fn last_top(marks: &[Option<Mark>], rows: &Rows, op: u32, height: usize) -> Option<ValType>
    requires rows { AreRows rows.now marks.now (length marks.now) }
    requires there { op < length marks.now }
    ensures { (last : ℕ) (mark : MarkThere) → LastOf marks.now op height last mark
        → result ≡ mark.top }
{
    match rows.get(height) {
        Some(row) => match last_in(row.as_slice(), op) {
            Some(i) => top_in(marks, i),
            None => None,
        },
        None => None,
    }
}

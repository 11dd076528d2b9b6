//! The greatest heights of operands.

ghost use Rattle.std.specs.Prelude.{◌≡◌, ◌<◌, ◌≤◌, ◌⊎◌, map, length, slice_get, IfOk, Some, None};
ghost use Rattle.wasm_validate.specs.calls.MarkedHeights.{height_or_zero, heights_of, IsGreatest, FirstHighMarks};
ghost use Rattle.wasm_validate.specs.calls.MarkedHeights.{LowMarks};

use causes::NoMemory;
use pm_text::Items;
use std::alloc::Global;
use validate_body::{Mark, Marks};
use wasm_syntax::Heights;

/// The greatest number of operands before an instruction.
const GREATEST: usize = 4096;

/// The height that a mark has, or 0 in dead code.
fn height_of(mark: Option<Mark>) -> usize
    ensures { result ≡ height_or_zero mark }
{
    match mark {
        Some(mark) => mark.height,
        None => 0,
    }
}

/// A mark of a function.
pub fn mark_in(marks: &[Option<Mark>], i: usize) -> Option<Mark>
    requires { i < length marks.now }
    ensures { slice_get marks.now i ≡ Some result }
{
    marks[i]
}

/// The greater of a height and that of a mark.
fn greater(most: usize, mark: Option<Mark>) -> usize
    ensures over { most ≤ result }
    ensures holds { height_or_zero mark ≤ result }
    ensures either { (result ≡ most) ⊎ (result ≡ height_or_zero mark) }
{
    let height = height_of(mark);
    if height > most {
        return height;
    }
    most
}

/// The greatest height of a function's marks.
fn greatest_height(marks: &[Option<Mark>]) -> usize
    ensures { IsGreatest marks.now result }
{
    let mut most = 0;
    let mut i = 0;
    while i < marks.len() {
        most = greater(most, mark_in(marks, i));
        i += 1;
    }
    most
}

/// The marks of a function.
pub fn marks_in(all: &[Marks], i: usize) -> &[Option<Mark>]
    requires { i < length all.now }
    ensures { slice_get all.now i ≡ Some result.now }
{
    all[i].as_slice()
}

/// The greatest height of the first function where it passes the number that is taken.
pub fn first_high(all: &[Marks]) -> Option<usize>
    ensures { FirstHighMarks all.now result }
{
    let mut i = 0;
    while i < all.len() {
        let most = greatest_height(marks_in(all, i));
        if most > GREATEST {
            return Some(most);
        }
        i += 1;
    }
    None
}

/// The heights of a function's marks.
fn heights_of_marks(alloc: Global, marks: &[Option<Mark>]) -> Result<Items<u32>, NoMemory>
    requires { LowMarks marks.now }
    ensures { IfOk result (λ v. v ≡ map height_or_zero marks.now) }
{
    let mut heights = Items::new(alloc);
    let mut i = 0;
    while i < marks.len() {
        let height = height_of(mark_in(marks, i));
        heights.push(height as u32)?;
        i += 1;
    }
    Ok(heights)
}

/// The heights of all marks.
pub fn heights_of_all(alloc: Global, all: &[Marks]) -> Result<Heights, NoMemory>
    requires { FirstHighMarks all.now None }
    ensures { IfOk result (λ v. v ≡ heights_of all.now) }
{
    let mut heights = Items::new(alloc);
    let mut i = 0;
    while i < all.len() {
        let list = heights_of_marks(alloc, marks_in(all, i))?;
        heights.push(list)?;
        i += 1;
    }
    Ok(heights)
}

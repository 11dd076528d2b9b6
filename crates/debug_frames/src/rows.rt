//! The rows of code addresses, as the lines of frames show them.

ghost use Rattle.std.specs.Prelude.{◌≡◌, option_map, IfOk};
ghost use Rattle.dwarf_line.specs.declared.lines.Row.{Row};
ghost use Rattle.debug_frames.specs.Programs as definitions;
ghost use Rattle.debug_frames.specs.inner.Paths as paths;

use crate::files::{Path, path_in};
use crate::held::Held;
use crate::programs::Program;
use dwarf_line::{Lines, Row};

/// The file and the line of a row. It borrows nothing of the line program that has the row.
#[derive(Drop)]
pub struct RowPlace<'a> {
    pub path: Option<Path<'a>>,
    pub line: u32,
}

fn row_place<'a>(lines: &Lines<'a>, row: Row) -> RowPlace<'a>
    ensures { result ≡ paths.row_place (record { lines = lines.now; row = row }) }
{
    RowPlace {
        path: path_in(lines, u64::from(row.file)),
        line: row.line,
    }
}

/// The place of the row of an address in what is kept of a program.
pub(crate) fn place_held<'a>(held: &Held<'a>, address: u32) -> Option<RowPlace<'a>>
    ensures { result ≡ option_map paths.row_place (definitions.located held.now address) }
{
    match held.place(address) {
        Some(row) => Some(row_place(held.lines(), row)),
        None => None,
    }
}

/// The place of the row of an address.
fn place_in<'a>(lines: &Lines<'a>, address: u32) -> Option<RowPlace<'a>>
    ensures { result ≡ option_map paths.row_place (definitions.located lines.now address) }
{
    match lines.place(address) {
        Some(row) => Some(row_place(lines, row)),
        None => None,
    }
}

/// The place of the row of an address in what stands at an offset.
pub(crate) fn place_in_program<'a>(program: &Program<'a>, address: u32) -> Option<RowPlace<'a>>
    ensures { result ≡ option_map paths.row_place (definitions.located_in program.now address) }
{
    match program {
        Program::Read(lines) => place_in(lines, address),
        Program::Unreadable => None,
    }
}

/// The name of the file of a number in what stands at an offset.
pub(crate) fn path_in_program<'a>(program: &Program<'a>, number: u64) -> Option<Path<'a>>
    ensures { result ≡ paths.path_in_program program.now number }
{
    match program {
        Program::Read(lines) => path_in(lines, number),
        Program::Unreadable => None,
    }
}

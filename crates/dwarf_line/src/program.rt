//! Reading line programs (DWARF 4 section 6.2.4).

ghost use Rattle.std.specs.Prelude.{◌≡◌, ◌≤◌, length, IfOk};
ghost use Rattle.wasm_bytes.specs.calls.Answers.{Gives};
ghost use Rattle.dwarf_bytes.specs.calls.Answers.{ReadsThere};
ghost use Rattle.dwarf_line.specs.Header.{layout};
ghost use Rattle.dwarf_line.specs.calls.Grammar.{lines};
ghost use Rattle.dwarf_line.specs.calls.Standing.{IsWhatStands};
ghost use Rattle.dwarf_line.specs.inner.Running.{lines_by};
ghost use Rattle.dwarf_line.specs.Program.{opcodes_item, program_item, lines_item, lines_at};

use crate::header::{Header, Versions, old_header};
use crate::lines::{Directories, Lines};
use crate::matrix::{Matrix, Running};
use crate::sequences::Sequences;
use causes::NoMemory;
use dwarf_bytes::{ReadFault, number, open_unit};
use std::alloc::Global;
use wasm_bytes::{ItemFault, Reader, gather_to_end};

/// What a header and the matrix of the opcodes behind it say.
fn lines_of<'a>(
    alloc: Global,
    first: u32,
    directories: Directories<'a>,
    matrix: Matrix<'a>,
) -> Result<Lines<'a>, NoMemory>
    ensures { IfOk result (λ lines. lines ≡ lines_by first directories.entry matrix.entry) }
{
    match Sequences::new(alloc, matrix.sequences) {
        Ok(sequences) => Ok(Lines {
            first,
            directories,
            files: matrix.files,
            sequences,
        }),
        Err(NoMemory) => Err(NoMemory),
    }
}

/// The opcodes up to the end of the block.
fn run<'a>(
    alloc: Global,
    header: Header<'a>,
    reader: &mut Reader<'a>,
) -> Result<Lines<'a>, ItemFault>
    ensures item { Gives result reader.new (opcodes_item header.entry reader.old) }
{
    let tables = header.tables;
    let mut running = Running {
        parameters: header.parameters,
        matrix: Matrix::new(alloc, tables.files),
    };
    match gather_to_end(alloc, &mut running, reader) {
        Ok(()) => match lines_of(alloc, header.first, tables.directories, running.matrix) {
            Ok(lines) => Ok(lines),
            Err(NoMemory) => Err(ItemFault::NoMemory),
        },
        Err(fault) => Err(fault),
    }
}

/// A version, its header, and the opcodes up to the end of the block.
#[tactic(auto, unfolding(crate::specs::Program::program_item))]
fn versioned<'a, V: Versions<'a>>(
    alloc: Global,
    versions: &V,
    reader: &mut Reader<'a>,
) -> Result<Lines<'a>, ItemFault>
    ensures item { Gives result reader.new (program_item (V.layouts versions.now) reader.old) }
{
    let version = number(reader, 2)? as u16;
    match versions.header(alloc, version, reader) {
        Ok(header) => run(alloc, header, reader),
        Err(fault) => Err(fault),
    }
}

/// The program of a unit.
#[tactic(auto, unfolding(crate::specs::Program::lines_item))]
fn unit<'a, V: Versions<'a>>(
    alloc: Global,
    versions: &V,
    reader: &mut Reader<'a>,
) -> Result<Lines<'a>, ItemFault>
    ensures item { Gives result reader.new (lines_item (V.layouts versions.now) reader.old) }
{
    let mut inner = open_unit(reader)?;
    match versioned(alloc, versions, &mut inner) {
        Ok(lines) => match inner.end() {
            Ok(()) => Ok(lines),
            Err(fault) => Err(ItemFault::At(fault.at)),
        },
        Err(fault) => Err(fault),
    }
}

/// What the line program at an offset of `.debug_line` says, by the headers of these versions.
#[tactic(auto, unfolding(crate::specs::Program::lines_at))]
pub fn read_program<'a, V: Versions<'a>>(
    alloc: Global,
    versions: &V,
    section: &'a [u8],
    at: usize,
) -> Result<Lines<'a>, ReadFault>
    ensures there { ReadsThere at result (lines_at (V.layouts versions.now) section.now at) }
{
    if at > section.len() {
        return Err(ReadFault::Unreadable { at });
    }
    match unit(alloc, versions, &mut Reader::starting_at(section, at)) {
        Ok(lines) => Ok(lines),
        Err(ItemFault::At(_)) => Err(ReadFault::Unreadable { at }),
        Err(ItemFault::NoMemory) => Err(ReadFault::NoMemory),
    }
}

/// The headers of versions 2 to 4.
#[derive(Drop)]
struct UpTo4 {}

impl<'a> Versions<'a> for UpTo4 {
    ghost layouts = { λ _. layout };

    fn header(
        &self,
        alloc: Global,
        version: u16,
        reader: &mut Reader<'a>,
    ) -> Result<Header<'a>, ItemFault> {
        old_header(alloc, version, reader)
    }
}

/// What the line program of version 2, 3 or 4 at an offset of `.debug_line` says.
///
/// # Errors
///
/// `Unreadable` where no program that has a reading stands there, with the offset that is given.
pub fn read_lines<'a>(alloc: Global, section: &'a [u8], at: usize) -> Result<Lines<'a>, ReadFault>
    ensures there { ReadsThere at result (lines_at layout section.now at) }
    ensures spelled { IsWhatStands lines section.now at result }
{
    read_program(alloc, &UpTo4 {}, section, at)
}

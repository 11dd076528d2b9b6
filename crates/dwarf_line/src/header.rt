//! The header of a line program (DWARF 4 section 6.2.4).

ghost use Rattle.std.specs.Prelude.{◌≡◌, ℕ, Option, OnOk};
ghost use Rattle.wasm_bytes.specs.Place.{Moves, Stays};
ghost use Rattle.wasm_bytes.specs.calls.Answers.{Gives};
ghost use Rattle.dwarf_bytes.specs.Format.{read};
ghost use Rattle.dwarf_line.specs.Header.{Layout, header_or_none, tables_item, layout, file};

use crate::lines::{Directories, LineFile, LineFiles};
use crate::opcodes::file_behind;
use crate::parameters::{Parameters, read_parameters};
use dwarf_bytes::{Ended, ended_items, open_counted, text};
use std::alloc::Global;
use wasm_bytes::{ItemFault, Reader};

/// The directories and files that a header names.
#[derive(Drop)]
pub struct Tables<'a> {
    pub directories: Directories<'a>,
    pub files: LineFiles<'a>,
}

/// A header without what stands behind its tables.
#[derive(Drop)]
pub struct Header<'a> {
    /// The number of the first directory and of the first file.
    pub first: u32,
    pub parameters: Parameters<'a>,
    pub tables: Tables<'a>,
}

/// Reads headers, as each version lays them out.
pub trait Versions<'a> {
    ghost layouts: { Self → ℕ → Option Layout };

    fn header(
        &self,
        alloc: Global,
        version: u16,
        reader: &mut Reader<'a>,
    ) -> Result<Header<'a>, ItemFault>
        ensures item { Gives result reader.new
            (header_or_none (layouts self.now version) reader.old) }
        ensures stays { OnOk result (Stays reader.old reader.new) };
}

/// An empty name ends a list.
impl<'a> Ended<'a> for LineFile<'a> {
    ghost item = { read file };

    #[tactic(auto, unfolding(dwarf_bytes::specs::Format::read))]
    fn read(_alloc: Global, reader: &mut Reader<'a>) -> Result<Option<LineFile<'a>>, ItemFault> {
        let name = text(reader)?;
        if name.is_empty() {
            return Ok(None);
        }
        Ok(Some(file_behind(name, reader)?))
    }
}

#[tactic(auto, unfolding(crate::specs::Header::tables_item))]
fn read_tables<'a>(alloc: Global, reader: &mut Reader<'a>) -> Result<Tables<'a>, ItemFault>
    ensures item { Gives result reader.new (tables_item reader.old) }
{
    let directories = ended_items(alloc, reader)?;
    let files = ended_items(alloc, reader)?;
    Ok(Tables { directories, files })
}

/// The header of a program of version 2, 3 or 4, behind its version.
#[tactic(auto, unfolding(dwarf_bytes::specs::Format::read, crate::specs::Header::header_item, crate::specs::Header::layout))]
pub fn old_header<'a>(
    alloc: Global,
    version: u16,
    reader: &mut Reader<'a>,
) -> Result<Header<'a>, ItemFault>
    ensures item { Gives result reader.new (header_or_none (layout version) reader.old) }
    ensures stays { OnOk result (Stays reader.old reader.new) }
{
    if version < 2 || version > 4 {
        return Err(ItemFault::At(reader.at()));
    }
    let mut inner = open_counted(reader)?;
    let parameters = read_parameters(version >= 4, &mut inner)?;
    match read_tables(alloc, &mut inner) {
        Ok(tables) => Ok(Header {
            first: 1,
            parameters,
            tables,
        }),
        Err(fault) => Err(fault),
    }
}

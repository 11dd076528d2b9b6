//! Reading line programs of versions 2 to 5 (DWARF 5 section 6.2.4).

ghost use Rattle.std.specs.Prelude.{◌≡◌, IfOk, OnOk};
ghost use Rattle.wasm_bytes.specs.Place.{Stays};
ghost use Rattle.wasm_bytes.specs.calls.Answers.{Gives};
ghost use Rattle.dwarf_bytes.specs.calls.Answers.{ReadsThere};
ghost use Rattle.dwarf_line.specs.Header.{header_item};
ghost use Rattle.dwarf_line.specs.Program.{lines_at};
ghost use Rattle.dwarf_line.specs.calls.Hulls.{hull_if};
ghost use Rattle.dwarf_line.specs.calls.Standing.{IsWhatStands};
ghost use Rattle.dwarf5_line.specs.Layout5.{texts_of, new_layout, layout5, lines5};

use crate::entries::read_tables;
use causes::NoMemory;
use dwarf_bytes::{ReadFault, byte, open_counted};
use dwarf_info::{PreparedSections, Sections5};
use dwarf_line::{Header, Hull, Lines, Scans, Versions, old_header, read_parameters, read_program};
use std::alloc::Global;
use wasm_bytes::{ItemFault, Reader};

/// The header of a program of version 5, behind its version.
#[tactic(auto, unfolding(dwarf_bytes::specs::Format::read, dwarf_line::specs::Header::header_item))]
fn new_header<'a>(
    alloc: Global,
    sections: &PreparedSections<'a>,
    reader: &mut Reader<'a>,
) -> Result<Header<'a>, ItemFault>
    ensures item { Gives result reader.new
        (header_item (new_layout (texts_of sections.now)) reader.old) }
    ensures stays { OnOk result (Stays reader.old reader.new) }
{
    let address_size = byte(reader)?;
    if address_size != 4 {
        return Err(ItemFault::At(reader.at()));
    }
    let segment_selector_size = byte(reader)?;
    if segment_selector_size != 0 {
        return Err(ItemFault::At(reader.at()));
    }
    let mut inner = open_counted(reader)?;
    let parameters = read_parameters(true, &mut inner)?;
    match read_tables(alloc, sections, &mut inner) {
        Ok(tables) => Ok(Header {
            first: 0,
            parameters,
            tables,
        }),
        Err(fault) => Err(fault),
    }
}

/// The headers of versions 2 to 5, whose names may stand in these sections.
#[derive(Drop)]
struct UpToFive<'s, 'a> {
    sections: &'s PreparedSections<'a>,
}

impl<'s, 'a> Versions<'a> for UpToFive<'s, 'a> {
    ghost layouts = { λ v. layout5 (texts_of v.sections.now) };

    #[tactic(auto, unfolding(crate::specs::Layout5::layout5))]
    fn header(
        &self,
        alloc: Global,
        version: u16,
        reader: &mut Reader<'a>,
    ) -> Result<Header<'a>, ItemFault> {
        if version == 5 {
            new_header(alloc, self.sections, reader)
        } else {
            old_header(alloc, version, reader)
        }
    }
}

/// `.debug_line`
fn programs<'a>(sections: &PreparedSections<'a>) -> &'a [u8]
    ensures { result.now ≡ sections.now.base.line }
{
    sections.sections().base.line
}

/// The program at an offset of a section, whose names may stand in others.
fn read_at<'a>(
    alloc: Global,
    sections: &PreparedSections<'a>,
    section: &'a [u8],
    at: usize,
) -> Result<Lines<'a>, ReadFault>
    ensures there { ReadsThere at result
        (lines_at (layout5 (texts_of sections.now)) section.now at) }
    ensures spelled { IsWhatStands (lines5 (texts_of sections.now)) section.now at result }
{
    read_program(alloc, &UpToFive { sections }, section, at)
}

/// The same as `read_lines5`, where many programs of the sections are read.
///
/// # Errors
///
/// `Unreadable` where no program that has a reading stands there, with the offset that is given.
pub fn read_prepared_lines5<'a>(
    alloc: Global,
    sections: &PreparedSections<'a>,
    at: usize,
) -> Result<Lines<'a>, ReadFault>
    ensures there { ReadsThere at result
        (lines_at (layout5 (texts_of sections.now)) sections.now.base.line at) }
    ensures spelled { IsWhatStands (lines5 (texts_of sections.now)) sections.now.base.line at
        result }
{
    let section = programs(sections);
    read_at(alloc, sections, section, at)
}

/// Scans of the programs in `.debug_line`, none of which was made yet.
pub fn scans5<'a>(alloc: Global, sections: &PreparedSections<'a>) -> Scans<'a>
    ensures { result ≡ sections.now.base.line }
{
    Scans::new(alloc, programs(sections))
}

/// The bounds of all addresses that the program of version 2, 3, 4 or 5 at an offset holds; None
/// where no program that has a reading stands there. No rows are made.
///
/// # Errors
///
/// `NoMemory` where memory runs out.
pub fn scan_lines5<'a>(
    alloc: Global,
    sections: &PreparedSections<'a>,
    at: usize,
    scans: &mut Scans<'a>,
) -> Result<Option<Hull>, NoMemory>
    ensures bounds { IfOk result (λ bounds. bounds
        ≡ hull_if (lines_at (layout5 (texts_of sections.now)) scans.old at)) }
    ensures same { scans.new ≡ scans.old }
{
    scans.bounds(alloc, &UpToFive { sections }, at)
}

/// What the line program of version 2, 3, 4 or 5 at an offset of `.debug_line` says.
///
/// # Errors
///
/// `Unreadable` where no program that has a reading stands there, with the offset that is given.
pub fn read_lines5<'a>(
    alloc: Global,
    sections: &Sections5<'a>,
    at: usize,
) -> Result<Lines<'a>, ReadFault>
    ensures there { ReadsThere at result
        (lines_at (layout5 (texts_of sections.now)) sections.now.base.line at) }
    ensures spelled { IsWhatStands (lines5 (texts_of sections.now)) sections.now.base.line at
        result }
{
    match PreparedSections::new(alloc, sections) {
        Ok(prepared) => read_prepared_lines5(alloc, &prepared, at),
        Err(NoMemory) => Err(ReadFault::NoMemory),
    }
}

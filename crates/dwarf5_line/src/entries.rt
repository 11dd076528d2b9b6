//! The directories and files of a line header of version 5 (DWARF 5 sections 6.2.4 and 6.2.4.1).

ghost use Rattle.std.specs.Prelude.{◌≡◌, ◌≤◌, map, IfOk, OnOk};
ghost use Rattle.wasm_bytes.specs.Place.{Stays};
ghost use Rattle.wasm_bytes.specs.Reading.{forgotten, run_item, items_from};
ghost use Rattle.wasm_bytes.specs.calls.Answers.{Reads, Gives};
ghost use Rattle.dwarf_bytes.specs.Format.{read};
ghost use Rattle.dwarf_info.specs.Values.{texts};
ghost use Rattle.dwarf5_line.specs.Entries.{text_in, number_of, content, pair, describes, path_of};
ghost use Rattle.dwarf5_line.specs.Entries.{directory_of, entry_item};
ghost use Rattle.dwarf5_line.specs.Entries.{counted_item, pairs_item, entries_item, name_of, tables_item};
ghost use Rattle.dwarf5_line.specs.Layout5.{texts_of};
ghost use Rattle.dwarf5_line.specs.inner.Summary.{summary_item, with_first};

use causes::NoMemory;
use dwarf_bytes::{byte, number, text};
use dwarf_info::{PreparedSections, TextSection};
use dwarf_line::{Directories, LineFile, LineFiles, Tables};
use pm_text::Items;
use std::alloc::Global;
use wasm_bytes::{ItemFault, Malformed, Reader, Run};

/// A content type and its form.
#[derive(Clone, Copy)]
pub struct Pair {
    pub kind: u64,
    pub form: u64,
}

/// What a form gives.
#[derive(Drop)]
pub enum FormContent<'a> {
    Number(u64),
    Text(Run<'a>),
    /// A block or a checksum.
    Unused,
}

/// What an entry says that is used.
#[derive(Drop)]
pub struct Summary<'a> {
    pub path: Option<FormContent<'a>>,
    pub directory: Option<FormContent<'a>>,
}

/// The text at the offset that stands here.
#[tactic(auto, unfolding(dwarf_bytes::specs::Format::read))]
fn text_in<'a>(
    sections: &PreparedSections<'a>,
    section: TextSection,
    reader: &mut Reader<'a>,
) -> Result<FormContent<'a>, Malformed>
    ensures item { Reads result reader.new
        (read (text_in (texts sections.now section)) reader.old) }
    ensures stays { OnOk result (Stays reader.old reader.new) }
{
    let at = number(reader, 4)?;
    match sections.text_at(section, at) {
        Some(text) => Ok(FormContent::Text(text)),
        None => Err(Malformed { at: reader.at() }),
    }
}

/// The number of so many bytes that stands here.
#[tactic(auto, unfolding(dwarf_bytes::specs::Format::read))]
fn number_of<'a>(width: usize, reader: &mut Reader<'_>) -> Result<FormContent<'a>, Malformed>
    requires { width ≤ 8 }
    ensures item { Reads result reader.new (read (number_of width) reader.old) }
    ensures stays { OnOk result (Stays reader.old reader.new) }
{
    match number(reader, width) {
        Ok(number) => Ok(FormContent::Number(number)),
        Err(fault) => Err(fault),
    }
}

/// What stands here, in a form (DWARF 5 section 7.5.6).
#[tactic(auto, unfolding(dwarf_bytes::specs::Format::read))]
fn read_content<'a>(
    sections: &PreparedSections<'a>,
    form: u64,
    reader: &mut Reader<'a>,
) -> Result<FormContent<'a>, Malformed>
    ensures item { Reads result reader.new
        (read (content (texts_of sections.now) form) reader.old) }
    ensures stays { OnOk result (Stays reader.old reader.new) }
{
    match form {
        0x05 => number_of(2, reader),
        0x06 => number_of(4, reader),
        0x07 => number_of(8, reader),
        0x08 => match text(reader) {
            Ok(bytes) => Ok(FormContent::Text(Run::new(bytes))),
            Err(fault) => Err(fault),
        },
        0x09 => {
            let len = reader.u64()?;
            match skip(len, reader) {
                Ok(()) => Ok(FormContent::Unused),
                Err(fault) => Err(fault),
            }
        }
        0x0b => number_of(1, reader),
        0x0e => text_in(sections, TextSection::Str, reader),
        0x0f => match reader.u64() {
            Ok(number) => Ok(FormContent::Number(number)),
            Err(fault) => Err(fault),
        },
        0x1e => match reader.run(16) {
            Ok(_) => Ok(FormContent::Unused),
            Err(fault) => Err(fault),
        },
        0x1f => text_in(sections, TextSection::LineStr, reader),
        _ => Err(Malformed { at: reader.at() }),
    }
}

/// Passes over so many bytes.
#[tactic(auto, unfolding(wasm_bytes::specs::Reading::run_item))]
fn skip(len: u64, reader: &mut Reader<'_>) -> Result<(), Malformed>
    ensures item { Reads result reader.new (forgotten (run_item len) reader.old) }
    ensures stays { OnOk result (Stays reader.old reader.new) }
{
    if len > reader.left() as u64 {
        return Err(Malformed { at: reader.at() });
    }
    reader.run(len as usize)?;
    Ok(())
}

impl<'a> Summary<'a> {
    /// The same with a content in front.
    fn add(&mut self, kind: u64, content: FormContent<'a>)
        ensures { self.new ≡ with_first (describes kind content.entry) self.old }
    {
        match kind {
            1 => self.path = Some(content),
            2 => self.directory = Some(content),
            _ => {}
        }
    }
}

/// One value for each pair, in order. Of a content type twice, the first counts.
fn read_summary<'a>(
    sections: &PreparedSections<'a>,
    pairs: &[Pair],
    reader: &mut Reader<'a>,
) -> Result<Summary<'a>, Malformed>
    ensures item { Reads result reader.new
        (summary_item (texts_of sections.now) pairs.now reader.old) }
    ensures stays { OnOk result (Stays reader.old reader.new) }
{
    let [pair, others @ ..] = pairs else {
        return Ok(Summary {
            path: None,
            directory: None,
        });
    };
    let first = read_content(sections, pair.form, reader)?;
    let mut summary = read_summary(sections, others, reader)?;
    summary.add(pair.kind, first);
    Ok(summary)
}

fn path_of<'a>(content: Option<FormContent<'a>>) -> Run<'a>
    ensures { result ≡ path_of content.entry }
{
    match content {
        Some(FormContent::Text(text)) => text,
        _ => Run::new(&[]),
    }
}

fn directory_of(content: Option<FormContent<'_>>) -> u64
    ensures { result ≡ directory_of content.entry }
{
    match content {
        Some(FormContent::Number(number)) => number,
        _ => 0,
    }
}

/// A directory or a file (DWARF 5 section 6.2.4.1).
#[tactic(auto, unfolding(crate::specs::Entries::entry_item))]
fn entry<'a>(
    sections: &PreparedSections<'a>,
    pairs: &[Pair],
    reader: &mut Reader<'a>,
) -> Result<LineFile<'a>, Malformed>
    ensures item { Reads result reader.new
        (entry_item (texts_of sections.now) pairs.now reader.old) }
    ensures stays { OnOk result (Stays reader.old reader.new) }
{
    let summary = read_summary(sections, pairs, reader)?;
    Ok(LineFile {
        name: path_of(summary.path),
        directory: directory_of(summary.directory),
    })
}

/// So many directories or files.
fn entries_of<'a>(
    alloc: Global,
    sections: &PreparedSections<'a>,
    pairs: &[Pair],
    count: u64,
    reader: &mut Reader<'a>,
) -> Result<LineFiles<'a>, ItemFault>
    ensures item { Gives result reader.new
        (items_from (entry_item (texts_of sections.now) pairs.now) count reader.old) }
    ensures stays { OnOk result (Stays reader.old reader.new) }
{
    let mut files = Items::new(alloc);
    for _ in 0..count {
        files.push(entry(sections, pairs, reader)?)?;
    }
    Ok(files)
}

#[tactic(auto, unfolding(dwarf_bytes::specs::Format::read))]
fn read_pair(reader: &mut Reader<'_>) -> Result<Pair, Malformed>
    ensures item { Reads result reader.new (read pair reader.old) }
    ensures stays { OnOk result (Stays reader.old reader.new) }
{
    let kind = reader.u64()?;
    let form = reader.u64()?;
    Ok(Pair { kind, form })
}

fn pairs_of(alloc: Global, count: u8, reader: &mut Reader<'_>) -> Result<Items<Pair>, ItemFault>
    ensures item { Gives result reader.new (items_from (read pair) count reader.old) }
    ensures stays { OnOk result (Stays reader.old reader.new) }
{
    let mut pairs = Items::new(alloc);
    for _ in 0..count {
        pairs.push(read_pair(reader)?)?;
    }
    Ok(pairs)
}

/// A count of pairs in one byte, and the pairs.
#[tactic(auto, unfolding(crate::specs::Entries::pairs_item))]
fn pairs(alloc: Global, reader: &mut Reader<'_>) -> Result<Items<Pair>, ItemFault>
    ensures item { Gives result reader.new (pairs_item reader.old) }
    ensures stays { OnOk result (Stays reader.old reader.new) }
{
    let count = byte(reader)?;
    pairs_of(alloc, count, reader)
}

/// A count, and as many directories or files.
#[tactic(auto, unfolding(crate::specs::Entries::counted_item))]
fn counted<'a>(
    alloc: Global,
    sections: &PreparedSections<'a>,
    pairs: &[Pair],
    reader: &mut Reader<'a>,
) -> Result<LineFiles<'a>, ItemFault>
    ensures item { Gives result reader.new
        (counted_item (texts_of sections.now) pairs.now reader.old) }
    ensures stays { OnOk result (Stays reader.old reader.new) }
{
    let at = reader.at();
    let count = reader.u64()?;
    if pairs.is_empty() && count != 0 {
        return Err(ItemFault::At(at));
    }
    entries_of(alloc, sections, pairs, count, reader)
}

/// The directories or the files.
#[tactic(auto, unfolding(crate::specs::Entries::entries_item))]
fn entries<'a>(
    alloc: Global,
    sections: &PreparedSections<'a>,
    reader: &mut Reader<'a>,
) -> Result<LineFiles<'a>, ItemFault>
    ensures item { Gives result reader.new (entries_item (texts_of sections.now) reader.old) }
    ensures stays { OnOk result (Stays reader.old reader.new) }
{
    let pairs = pairs(alloc, reader)?;
    counted(alloc, sections, pairs.as_slice(), reader)
}

fn names<'a>(alloc: Global, files: &[LineFile<'a>]) -> Result<Directories<'a>, NoMemory>
    ensures { IfOk result (λ names. names ≡ map name_of files.now) }
{
    let mut names = Items::new(alloc);
    for file in files {
        names.push(Run::new(file.name.as_slice()))?;
    }
    Ok(names)
}

/// Directories, and then files.
#[tactic(auto, unfolding(crate::specs::Entries::tables_item))]
pub fn read_tables<'a>(
    alloc: Global,
    sections: &PreparedSections<'a>,
    reader: &mut Reader<'a>,
) -> Result<Tables<'a>, ItemFault>
    ensures item { Gives result reader.new (tables_item (texts_of sections.now) reader.old) }
    ensures stays { OnOk result (Stays reader.old reader.new) }
{
    let directories = entries(alloc, sections, reader)?;
    let files = entries(alloc, sections, reader)?;
    Ok(Tables {
        directories: names(alloc, directories.as_slice())?,
        files,
    })
}

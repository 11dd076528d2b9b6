//! The names of source files (DWARF 4 and 5 section 6.2.4).

ghost use Rattle.std.specs.Prelude.{◌≡◌, ◌++◌, OnOk, IfOk, option_copied, codes};
ghost use Rattle.debug_frames.specs.Files as definitions;
ghost use Rattle.debug_frames.specs.inner.Paths as paths;

use causes::NoMemory;
use dwarf_line::{LineFile, Lines};
use pm_text::Text;
use std::alloc::Global;
use wasm_bytes::Run;

/// The name of a source file, beside the directory that is written before it.
#[derive(Drop)]
pub struct Path<'a> {
    pub directory: Option<Run<'a>>,
    pub name: Run<'a>,
}

fn file_of<'r, 'a>(lines: &'r Lines<'a>, number: u64) -> Option<&'r LineFile<'a>>
    ensures { option_copied result ≡ definitions.numbered lines.now.first lines.now.files number }
{
    if number < u64::from(lines.first) {
        return None;
    }
    lines.files.get((number - u64::from(lines.first)) as usize)
}

fn directory_of<'a>(lines: &Lines<'a>, number: u64) -> Option<Run<'a>>
    ensures { result ≡ definitions.numbered lines.now.first lines.now.directories number }
{
    if number < u64::from(lines.first) {
        return None;
    }
    match lines
        .directories
        .get((number - u64::from(lines.first)) as usize)
    {
        Some(directory) => Some(Run::new(directory.as_slice())),
        None => None,
    }
}

/// Whether a name is of the compilation's own directory, or begins at the root.
fn is_whole(file: &LineFile<'_>) -> bool
    ensures { result ≡ definitions.is_whole file.now }
{
    file.directory == 0 || file.name.as_slice().starts_with(b"/")
}

/// The directory that is written before a name.
fn directory_before<'a>(lines: &Lines<'a>, file: &LineFile<'_>) -> Option<Run<'a>>
    ensures { result ≡ definitions.directory_before lines.now file.now }
{
    if is_whole(file) {
        None
    } else {
        directory_of(lines, file.directory)
    }
}

/// A name with its directory before it.
fn joined(alloc: Global, directory: &[u8], name: &[u8]) -> Result<Vec<u8>, NoMemory>
    ensures { IfOk result (λ path. path.items ≡ directory.now ++ codes "/" ++ name.now) }
{
    let mut path = Vec::new(alloc);
    path.extend_from_slice(directory)?;
    path.extend_from_slice(b"/")?;
    path.extend_from_slice(name)?;
    Ok(path)
}

fn path_of<'a>(lines: &Lines<'a>, file: &LineFile<'a>) -> Path<'a>
    ensures { result ≡ paths.path_of lines.now file.now }
{
    Path {
        directory: directory_before(lines, file),
        name: Run::new(file.name.as_slice()),
    }
}

/// The name of the file of a number.
pub(crate) fn path_in<'a>(lines: &Lines<'a>, number: u64) -> Option<Path<'a>>
    ensures { result ≡ paths.path_in lines.now number }
{
    match file_of(lines, number) {
        Some(file) => Some(path_of(lines, file)),
        None => None,
    }
}

fn push_path(out: &mut Text, alloc: Global, path: &Path<'_>) -> Result<(), NoMemory>
    ensures { OnOk result (out.new ≡ out.old ++ paths.shown path.now) }
{
    match &path.directory {
        Some(directory) => {
            let path = joined(alloc, directory.as_slice(), path.name.as_slice())?;
            out.push_plain(path.as_slice())
        }
        None => out.push_plain(path.name.as_slice()),
    }
}

/// Adds the name of a file, or `?` where there is none.
pub(crate) fn push_path_or_mark(
    out: &mut Text,
    alloc: Global,
    path: &Option<Path<'_>>,
) -> Result<(), NoMemory>
    ensures { OnOk result (out.new ≡ out.old ++ paths.shown_or_mark path.now) }
{
    match path {
        Some(path) => push_path(out, alloc, path),
        None => out.push_str("?"),
    }
}

/// Adds the name of the file of a number, or `?` where there is none.
#[tactic(auto, unfolding(crate::specs::Files::file_text))]
pub fn push_file(
    out: &mut Text,
    alloc: Global,
    lines: &Lines<'_>,
    number: Option<u64>,
) -> Result<(), NoMemory>
    ensures { OnOk result (out.new ≡ out.old ++ definitions.file_text lines.now number) }
{
    let Some(number) = number else {
        return out.push_str("?");
    };
    match file_of(lines, number) {
        Some(file) => push_path(out, alloc, &path_of(lines, file)),
        None => out.push_str("?"),
    }
}

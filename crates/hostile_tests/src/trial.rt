//! Commands over files in memory.

ghost use Rattle.host_set.specs.Sets.{AreDistinct, names};

use causes::NoMemory;
use host_set::{DeviceSet, Devices};
use pm_cli::post_mortem;
use pm_outside::{MemFiles, MemSink};
use std::alloc::{AllocError, Global};

/// The words of a line, between its semicolons.
pub fn words_of(alloc: Global, line: &str) -> Result<Vec<String>, AllocError> {
    let mut words = Vec::new(alloc);
    for word in line.split(';') {
        words.push(String::from_str(alloc, word)?)?;
    }
    Ok(words)
}

/// The status of a command.
pub fn status<D: Devices>(
    alloc: Global,
    words: &[String],
    files: &mut MemFiles,
    out: &mut MemSink,
    devices: &mut D,
) -> u8
    requires { AreDistinct (names (D.shown devices.old)) }
    ensures { AreDistinct (names (D.shown devices.new)) }
{
    post_mortem(alloc, words, files, out, devices).code()
}

/// The status of a command without devices.
pub fn status_alone(
    alloc: Global,
    words: &[String],
    files: &mut MemFiles,
    out: &mut MemSink,
) -> u8 {
    let mut devices = DeviceSet::new(alloc);
    status(alloc, words, files, out, &mut devices)
}

/// Whether the words of a line get this status and text, without devices.
pub fn answers(alloc: Global, line: &str, files: &mut MemFiles, wanted: (u8, &str)) -> bool {
    let Ok(words) = words_of(alloc, line) else {
        return false;
    };
    let mut out = MemSink::new(alloc, Vec::new(alloc));
    status_alone(alloc, &words, files, &mut out) == wanted.0 && out.bytes() == wanted.1.as_bytes()
}

/// Files with a module in `m` and replies in `r`.
pub fn files_of(alloc: Global, source: &[u8], replies: &str) -> Result<MemFiles, NoMemory> {
    let mut files = MemFiles::new(alloc, Vec::new(alloc));
    files.add("m", source)?;
    files.add("r", replies.as_bytes())?;
    Ok(files)
}

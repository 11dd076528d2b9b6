//! Commands over files in memory and devices.

ghost use Rattle.host_set.specs.Sets.{AreDistinct, names};

use causes::NoMemory;
use host_set::{DeviceSet, Devices};
use pm_cli::post_mortem;
use pm_outside::{MemFiles, MemSink};
use std::alloc::{AllocError, Global};

/// The words of two pieces of a line.
fn words_of(alloc: Global, pieces: [&str; 2]) -> Result<Vec<String>, AllocError> {
    let mut words = Vec::new(alloc);
    for piece in pieces {
        for word in piece.split(' ') {
            words.push(String::from_str(alloc, word)?)?;
        }
    }
    Ok(words)
}

/// The status of a command.
fn status<D: Devices>(
    alloc: Global,
    words: &[String],
    files: &mut MemFiles,
    out: &mut MemSink,
    devices: &mut D,
) -> u8
    requires { AreDistinct (names (D.shown devices.old)) }
{
    post_mortem(alloc, words, files, out, devices).code()
}

/// Whether the words of a line get this status and text, served by these devices.
pub fn are_served<D: Devices>(
    alloc: Global,
    pieces: [&str; 2],
    files: &mut MemFiles,
    devices: &mut D,
    wanted: (u8, &str),
) -> bool
    requires { AreDistinct (names (D.shown devices.old)) }
{
    let Ok(words) = words_of(alloc, pieces) else {
        return false;
    };
    let mut out = MemSink::new(alloc, Vec::new(alloc));
    status(alloc, &words, files, &mut out, devices) == wanted.0
        && out.bytes() == wanted.1.as_bytes()
}

/// Whether the words of a line get this status and text, without devices.
pub fn are_answered(
    alloc: Global,
    pieces: [&str; 2],
    files: &mut MemFiles,
    wanted: (u8, &str),
) -> bool {
    let mut devices = DeviceSet::new(alloc);
    are_served(alloc, pieces, files, &mut devices, wanted)
}

/// Files with a module in `m` and replies in `r`, whose calls with these numbers fail.
pub fn files_of(
    alloc: Global,
    source: &[u8],
    replies: &[u8],
    failing: &[u64],
) -> Result<MemFiles, NoMemory> {
    let mut files = MemFiles::new(alloc, Vec::from_slice(alloc, failing)?);
    files.add("m", source)?;
    files.add("r", replies)?;
    Ok(files)
}

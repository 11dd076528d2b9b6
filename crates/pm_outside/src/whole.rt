//! Reading a file whole.

ghost use Rattle.std.specs.Prelude.{◌≡◌, ◌≤◌, length, vec_len, Some, IfOk, IfErr, IfSome, IsErrOf};
ghost use Rattle.causes.specs.Counts.{Rose};
ghost use Rattle.pm_outside.specs.calls.Whole.{Refuses};
ghost use Rattle.pm_outside.specs.declared.whole.FileError.TheVariants.{NoMemory};
ghost use Rattle.pm_outside.specs.calls.Kept.{FilesKept};

use crate::{Files, ReadAnswer};
use std::alloc::{AllocError, Global};

/// Why a file is not read.
#[derive(Clone, Copy, PartialEq, Eq)]
pub enum FileError {
    /// There is no such file.
    Missing,
    /// It has more bytes than the limit.
    TooLong,
    /// The count of faults rose.
    Failed,
    NoMemory,
}

impl From<AllocError> for FileError {
    ghost from_gives = { λ _ e. e ≡ NoMemory };

    fn from(_e: AllocError) -> FileError {
        FileError::NoMemory
    }
}

/// The greatest size of a piece, in bytes. It is read into the heap.
const PIECE: usize = 65_536;

/// A buffer of so many zero bytes.
fn zeros(alloc: Global, size: usize) -> Result<Vec<u8>, AllocError>
    ensures { IfOk result (λ piece. vec_len piece ≡ size) }
{
    Vec::from_elem(alloc, 0u8, size)
}

/// All bytes of a file, if they are no more than `limit`.
///
/// It reads up to one byte past the limit, so a longer file is refused without being read whole.
pub fn read_file<F: Files>(
    alloc: Global,
    files: &mut F,
    name: &str,
    limit: usize,
) -> Result<Vec<u8>, FileError>
    ensures limited { IfOk result (λ bytes. length bytes.items ≤ limit) }
    ensures whole { IfSome (F.told files.old)
        (λ held. IfOk result (λ bytes. held name.now ≡ Some bytes.items)) }
    ensures refused { IfSome (F.told files.old)
        (λ held. IfErr result (Refuses limit (held name.now))) }
    ensures failed { IsErrOf result FileError.Failed
        → Rose (F.faults files.old) (F.faults files.new) }
    ensures files { FilesKept F.told F.created F.faults files.old files.new }
{
    let mut bytes = Vec::new(alloc);
    let mut buffer = zeros(alloc, PIECE)?;
    let piece: &mut [u8] = &mut buffer;
    'pieces: loop {
        let left = limit - bytes.len();
        let into = &mut piece[..left.min(PIECE - 1) + 1];
        match files.read_at(name, bytes.len() as u64, into) {
            ReadAnswer::Got(count) => {
                if count > left {
                    return Err(FileError::TooLong);
                }
                bytes.extend_from_slice(&into[..count])?;
            }
            ReadAnswer::End => return Ok(bytes),
            ReadAnswer::Missing => return Err(FileError::Missing),
            ReadAnswer::Failed => return Err(FileError::Failed),
            ReadAnswer::NoMemory => return Err(FileError::NoMemory),
        }
    }
}

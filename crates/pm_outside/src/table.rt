//! Files in memory, by name.

ghost use Rattle.std.specs.Prelude.{◌≡◌, ◌≢◌, [], ◌++◌, Some, OnOk, OnErr, unwrap_or};
ghost use Rattle.std.specs.Option.{option_copied};
ghost use Rattle.pm_outside.specs.Contents.{SameBut, held};
ghost use Rattle.pm_outside.specs.calls.Memory.{IsPartAdded};

use causes::NoMemory;
use std::alloc::Global;
use std::collections::BTreeMap;
use std::marker::Model;

/// The bytes of each name.
#[derive(Drop)]
pub(crate) struct Table {
    alloc: Global,
    files: BTreeMap<String, Vec<u8>>,
}

impl Model for Table {
    ghost use Rattle.std.specs.Prelude.{ℕ, List, map};
    ghost use Rattle.std.specs.String.{string_bytes};

    ghost Value = { List (List ℕ × List ℕ) };

    ghost view = { λ t. map (λ e. (string_bytes e.0, e.1.items)) t.files.entries };
}

impl Table {
    pub(crate) fn new(alloc: Global) -> Self
        ensures { result ≡ [] }
    {
        Table {
            alloc,
            files: BTreeMap::new(alloc),
        }
    }

    /// The bytes of a file.
    pub(crate) fn get(&self, name: &str) -> Option<&[u8]>
        ensures { option_copied result ≡ held self.now name.now }
    {
        match self.files.get(name) {
            Some(bytes) => Some(bytes.as_slice()),
            None => None,
        }
    }

    /// Sets a file.
    pub(crate) fn set(&mut self, name: &str, bytes: &[u8]) -> Result<(), NoMemory>
        ensures set { OnOk result (held self.new name.now ≡ Some bytes.now) }
        ensures others { SameBut name.now (held self.old) (held self.new) }
        ensures refused { OnErr result (self.new ≡ self.old) }
    {
        let key = String::from_str(self.alloc, name)?;
        let bytes = Vec::from_slice(self.alloc, bytes)?;
        drop(self.files.insert(key, bytes)?);
        Ok(())
    }

    /// Adds bytes at the end of a file, which is made if it is not there.
    pub(crate) fn append(&mut self, name: &str, bytes: &[u8]) -> Result<(), NoMemory>
        ensures more { OnOk result (held self.new name.now
            ≡ Some (unwrap_or (held self.old name.now) [] ++ bytes.now)) }
        ensures others { SameBut name.now (held self.old) (held self.new) }
        ensures refused { OnErr result (held self.new name.now ≡ held self.old name.now) }
    {
        match self.files.get_mut(name) {
            Some(old) => {
                old.extend_from_slice(bytes)?;
                Ok(())
            }
            None => self.set(name, bytes),
        }
    }

    /// Adds the first `part` bytes of a piece, all of a shorter one. Where that is none the file is
    /// as before, and no memory is taken.
    pub(crate) fn append_part(
        &mut self,
        name: &str,
        piece: &[u8],
        part: usize,
    ) -> Result<(), NoMemory>
        ensures added { OnOk result (IsPartAdded part name.now piece.now (held self.old)
            (held self.new)) }
        ensures others { SameBut name.now (held self.old) (held self.new) }
        ensures refused { OnErr result (held self.new name.now ≡ held self.old name.now) }
        ensures some { OnErr result (part ≢ 0) }
    {
        if part == 0 {
            return Ok(());
        }
        self.append(name, &piece[..part.min(piece.len())])
    }
}

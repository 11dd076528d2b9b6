//! One page: absent, or 65,536 bytes.

ghost use Rattle.std.specs.Prelude.{◌≡◌, ◌+◌, ◌≤◌, length, IfOk, MatchOption, is_some, IsSome, replicate};
ghost use Rattle.linear_memory.specs.Memory.{splice, to_bytes};
ghost use Rattle.linear_memory.specs.calls.Paged.{IsWidth};

use crate::raw::RawPage;
use crate::words::{put, put_equal, write_word};
use std::alloc::{AllocError, Global};
use std::marker::Model;

#[derive(Drop)]
pub(crate) struct Page {
    raw: Option<RawPage>,
}

impl Model for Page {
    ghost use Rattle.std.specs.Prelude.{List, ℕ, Option};
    ghost use Rattle.linear_memory.specs.inner.Table.{IsWhole, bytes_behind};

    ghost Value = { Option (List ℕ) };

    ghost view = { λ a. bytes_behind a.raw };

    ghost invariant = { λ a. IsWhole (bytes_behind a.raw) };
}

impl Page {
    ghost use Rattle.linear_memory.specs.inner.Table.{zeros, page_bytes};

    pub(crate) fn absent() -> Page
        ensures { result ≡ None }
    {
        Page { raw: None }
    }

    // A page of zeros.
    pub(crate) fn make(alloc: Global) -> Result<Page, AllocError>
        ensures { IfOk result (λ page. page ≡ Some zeros) }
    {
        let raw = RawPage::make(alloc)?;
        Ok(Page { raw: Some(raw) })
    }

    #[inline(always)]
    pub(crate) fn is_made(&self) -> bool
        ensures { result ≡ is_some self.now }
    {
        self.raw.is_some()
    }

    #[inline(always)]
    pub(crate) fn bytes(&self) -> Option<&[u8]>
        ensures { MatchOption result (self.now ≡ None)
            (λ bytes. (self.now ≡ Some bytes.now) × (length bytes.now ≡ 65536)) }
    {
        match &self.raw {
            Some(raw) => Some(&raw.read()[..]),
            None => None,
        }
    }

    // Overwrites the bytes from `at` on.
    pub(crate) fn write(&mut self, at: usize, part: &[u8])
        requires made { IsSome self.old }
        requires inside { at + length part.now ≤ 65536 }
        ensures { self.new ≡ Some (splice (page_bytes self.old) at part.now) }
    {
        match &mut self.raw {
            Some(raw) => put(&mut raw.write()[..], at, part),
            None => unreachable!(),
        }
    }

    #[inline(always)]
    pub(crate) fn store(&mut self, at: usize, width: usize, value: u64)
        requires made { IsSome self.old }
        requires width { IsWidth width }
        requires inside { at + width ≤ 65536 }
        ensures { self.new ≡ Some (splice (page_bytes self.old) at (to_bytes width value)) }
    {
        match &mut self.raw {
            Some(raw) => write_word(&mut raw.write()[..], at, width, value),
            None => unreachable!(),
        }
    }

    // Sets the `len` bytes from `at` on.
    pub(crate) fn fill(&mut self, at: usize, byte: u8, len: usize)
        requires made { IsSome self.old }
        requires inside { at + len ≤ 65536 }
        ensures { self.new ≡ Some (splice (page_bytes self.old) at (replicate len byte)) }
    {
        match &mut self.raw {
            Some(raw) => put_equal(&mut raw.write()[..], at, byte, len),
            None => unreachable!(),
        }
    }

    pub(crate) fn copy_of(&self, alloc: Global) -> Result<Page, AllocError>
        ensures { IfOk result (λ page. page ≡ self.now) }
    {
        match self.bytes() {
            Some(bytes) => {
                let mut page = Page::make(alloc)?;
                page.write(0, bytes);
                Ok(page)
            }
            None => Ok(Page::absent()),
        }
    }
}

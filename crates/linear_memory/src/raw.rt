//! The bytes of a page behind a raw pointer. No other file of the crate touches a pointer.

ghost use Rattle.std.specs.Prelude.{◌≡◌, ℕ, List, IfOk};
ghost use Rattle.std.specs.Borrow.{sem};
ghost use Rattle.std.specs.Coded.{coded_list, coded_ℕ};
ghost use Rattle.linear_memory.specs.inner.Ownership.{block_owned, block_lent};

use std::alloc::{AllocError, Global};
use std::marker::Model;

const PAGE: usize = 65536;

pub(crate) struct RawPage {
    at: *mut [u8; PAGE],
    heap: Global,
    pub(crate) ghost bytes: { List ℕ } by { coded_list coded_ℕ },
}

impl Model for RawPage {
    ghost also_owns = { λ p. block_owned p.heap p.at p.bytes };

    ghost also_shares = { λ p _ κ. block_lent p.at p.bytes κ };
}

impl RawPage {
    ghost use Rattle.linear_memory.specs.inner.Lending.{LendsBytes};
    ghost use Rattle.linear_memory.specs.inner.Table.{zeros};

    // A page of zeros.
    #[inline(never)]
    pub(crate) fn make(heap: Global) -> Result<RawPage, AllocError>
        ensures { IfOk result (λ page. page.bytes ≡ zeros) }
    {
        Ok(RawPage::of(Box::new(heap, [0u8; PAGE])?))
    }

    fn of(block: Box<[u8; PAGE]>) -> RawPage
        ensures { result.bytes ≡ block.value }
    {
        let (at, heap) = Box::into_raw_with_allocator(block);
        RawPage { at, heap }
    }

    fn into_box(self) -> Box<[u8; PAGE]>
        ensures { result.value ≡ self.bytes }
    {
        let RawPage { at, heap } = self;
        unsafe { Box::from_raw(heap, at) }
    }

    #[inline(always)]
    pub(crate) fn read(&self) -> &[u8; PAGE]
        ensures { result.now ≡ self.now.bytes }
    {
        unsafe { &*self.at }
    }

    #[inline(always)]
    pub(crate) fn write(&mut self) -> &mut [u8; PAGE]
        ensures* writes_back { sem 𝓛 (LendsBytes self.entry result) }
        ensures value { result.now ≡ self.old.bytes }
    {
        unsafe { &mut *self.at }
    }
}

impl Drop for RawPage {
    fn drop(self) {
        drop(self.into_box());
    }
}

//! Changes of a table of pages, each of them whole or not at all.

ghost use Rattle.std.specs.Prelude.{◌≡◌, ◌+◌, ◌<◌, ◌≤◌, length, replicate, false, IsTrue};
ghost use Rattle.linear_memory.specs.inner.Changes.{Prepares, Puts, Copies};
ghost use Rattle.linear_memory.specs.inner.Table.{contents, AllWhole};

use crate::StoreFault;
use crate::page::Page;
use crate::table::{fill_all, make_all, move_all, put_all};
use std::alloc::Global;

// Whether the `len` bytes from `at` on lie inside.
#[tactic(auto, using(crate::proofs::Contents::length_of_contents))]
fn is_inside(pages: &[Page], at: u64, len: u64) -> bool
    requires whole { AllWhole pages.now }
    requires small { length pages.now ≤ 4096 }
    ensures inside { IsTrue result → at + len ≤ length (contents pages.now) }
    ensures out { (result ≡ false) → length (contents pages.now) < at + len }
{
    let end = 65536 * pages.len() as u64;
    at <= end && len <= end - at
}

// Makes the pages that the `len` bytes from `at` on touch.
fn prepare(pages: &mut [Page], alloc: Global, at: u64, len: u64) -> Result<(), StoreFault>
    requires whole { AllWhole pages.old }
    requires small { length pages.old ≤ 4096 }
    ensures { Prepares result pages.old pages.new at len }
{
    if !is_inside(pages, at, len) {
        return Err(StoreFault::Out);
    }
    if !make_all(pages, alloc, at as usize, len as usize) {
        return Err(StoreFault::NoMemory);
    }
    Ok(())
}

// Overwrites the bytes from `at` on.
pub(crate) fn put_bytes(
    pages: &mut [Page],
    alloc: Global,
    at: u64,
    bytes: &[u8],
) -> Result<(), StoreFault>
    requires whole { AllWhole pages.old }
    requires small { length pages.old ≤ 4096 }
    ensures { Puts result pages.old pages.new at (length bytes.now) bytes.now }
{
    match prepare(pages, alloc, at, bytes.len() as u64) {
        Ok(()) => {
            put_all(pages, at as usize, bytes);
            Ok(())
        }
        Err(fault) => Err(fault),
    }
}

// Sets the `len` bytes from `at` on.
pub(crate) fn fill_bytes(
    pages: &mut [Page],
    alloc: Global,
    at: u64,
    byte: u8,
    len: u64,
) -> Result<(), StoreFault>
    requires whole { AllWhole pages.old }
    requires small { length pages.old ≤ 4096 }
    ensures { Puts result pages.old pages.new at len (replicate len byte) }
{
    match prepare(pages, alloc, at, len) {
        Ok(()) => {
            fill_all(pages, at as usize, byte, len as usize);
            Ok(())
        }
        Err(fault) => Err(fault),
    }
}

// Copies the `len` bytes from `from` on to `to`, as they were before.
pub(crate) fn copy_bytes(
    pages: &mut [Page],
    alloc: Global,
    to: u64,
    from: u64,
    len: u64,
) -> Result<(), StoreFault>
    requires whole { AllWhole pages.old }
    requires small { length pages.old ≤ 4096 }
    ensures { Copies result pages.old pages.new to from len }
{
    if !is_inside(pages, from, len) {
        return Err(StoreFault::Out);
    }
    match prepare(pages, alloc, to, len) {
        Ok(()) => {
            move_all(pages, to as usize, from as usize, len as usize);
            Ok(())
        }
        Err(fault) => Err(fault),
    }
}

//! A table of pages, read and written as one list of bytes.

ghost use Rattle.std.specs.Prelude.{◌≡◌, ◌+◌, ◌-◌, ◌*◌, ◌/◌, ◌%◌, ◌^◌, ◌<◌, ◌≤◌, ◌↔◌, ◌++◌, length, map, is_some};
ghost use Rattle.std.specs.Prelude.{replicate, if◌then◌else◌, IsTrue, IfOk, IsSome, IfSome, IfNone, false, ℕ, ◌⊎◌};
ghost use Rattle.linear_memory.specs.Memory.{window, splice, from_bytes, to_bytes};
ghost use Rattle.linear_memory.specs.calls.Paged.{IsWidth, AllMade, IsMade, StaysMade, Makes};
ghost use Rattle.linear_memory.specs.inner.Table.{contents, AllWhole, zeros};

use crate::page::Page;
use crate::words::read_word;
use std::alloc::{AllocError, Global};

// Adds `count` absent pages, or none where memory is wanting.
fn push_absent(table: &mut Vec<Page>, count: usize) -> bool
    requires { count ≤ 4096 }
    ensures { table.new.items ≡ (if result then table.old.items
        ++ replicate count None else table.old.items) }
{
    let before = table.len();
    for _ in 0..count {
        if table.push(Page::absent()).is_err() {
            table.truncate(before);
            return false;
        }
    }
    true
}

// Makes each page that the `len` bytes from `at` on touch, or none where memory is wanting.
pub(crate) fn make_all(pages: &mut [Page], alloc: Global, at: usize, len: usize) -> bool
    requires whole { AllWhole pages.old }
    requires inside { at + len ≤ 65536 * length pages.old }
    requires small { length pages.old ≤ 4096 }
    ensures contents { contents pages.new ≡ contents pages.old }
    ensures whole { AllWhole pages.new }
    ensures made { IsTrue result → Makes (map is_some pages.old) (map is_some pages.new) at len }
    ensures refused { (result ≡ false) → pages.new ≡ pages.old }
    ensures memory { AllMade (map is_some pages.old) at len → IsTrue result }
{
    if len == 0 {
        return true;
    }
    let index = at / 65536;
    let room = 65536 - at % 65536;
    let step = len.min(room);
    if pages[index].is_made() {
        return make_all(pages, alloc, at + step, len - step);
    }
    match Page::make(alloc) {
        Ok(page) => {
            if make_all(pages, alloc, at + step, len - step) {
                install(pages, index, page);
                true
            } else {
                false
            }
        }
        Err(_) => false,
    }
}

// Puts a page of zeros where the page is absent.
fn install(pages: &mut [Page], index: usize, page: Page)
    requires whole { AllWhole pages.old }
    requires inside { index < length pages.old }
    requires zero { page ≡ Some zeros }
    ensures contents { contents pages.new ≡ contents pages.old }
    ensures whole { AllWhole pages.new }
    ensures stays { StaysMade (map is_some pages.old) (map is_some pages.new) }
    ensures made { IsMade (map is_some pages.new) index }
    ensures only { (page : ℕ) → IsMade (map is_some pages.new) page
        → IsMade (map is_some pages.old) page ⊎ (page ≡ index) }
{
    if !pages[index].is_made() {
        pages[index] = page;
    }
}

// Overwrites the bytes from `at` on, within one page.
fn put_in(pages: &mut [Page], at: usize, part: &[u8])
    requires whole { AllWhole pages.old }
    requires inside { (at / 65536 < length pages.old) × (at % 65536 + length part.now ≤ 65536) }
    requires made { IsMade (map is_some pages.old) (at / 65536) }
    ensures contents { contents pages.new ≡ splice (contents pages.old) at part.now }
    ensures whole { AllWhole pages.new }
    ensures made { map is_some pages.new ≡ map is_some pages.old }
{
    pages[at / 65536].write(at % 65536, part);
}

// Overwrites the bytes from `at` on, in pages that are made.
pub(crate) fn put_all(pages: &mut [Page], at: usize, bytes: &[u8])
    requires whole { AllWhole pages.old }
    requires inside { at + length bytes.now ≤ 65536 * length pages.old }
    requires small { length pages.old ≤ 4096 }
    requires made { AllMade (map is_some pages.old) at (length bytes.now) }
    ensures contents { contents pages.new ≡ splice (contents pages.old) at bytes.now }
    ensures whole { AllWhole pages.new }
    ensures made { map is_some pages.new ≡ map is_some pages.old }
{
    if bytes.is_empty() {
        return;
    }
    let step = bytes.len().min(65536 - at % 65536);
    put_in(pages, at, &bytes[..step]);
    put_all(pages, at + step, &bytes[step..]);
}

// Reads the bytes from `at` on, within one page.
fn read_in(pages: &[Page], at: usize, into: &mut [u8])
    requires whole { AllWhole pages.now }
    requires inside { (at / 65536 < length pages.now) × (at % 65536 + length into.old ≤ 65536) }
    ensures { into.new ≡ window (contents pages.now) at (length into.old) }
{
    let offset = at % 65536;
    match pages[at / 65536].bytes() {
        Some(bytes) => into.copy_from_slice(&bytes[offset..offset + into.len()]),
        None => into.fill(0),
    }
}

// Reads the bytes from `at` on.
pub(crate) fn read_all(pages: &[Page], at: usize, into: &mut [u8])
    requires whole { AllWhole pages.now }
    requires inside { at + length into.old ≤ 65536 * length pages.now }
    requires small { length pages.now ≤ 4096 }
    ensures { into.new ≡ window (contents pages.now) at (length into.old) }
{
    if into.is_empty() {
        return;
    }
    let step = into.len().min(65536 - at % 65536);
    let (head, tail) = into.split_at_mut(step);
    read_in(pages, at, head);
    read_all(pages, at + step, tail);
}

// Adds `count` pages of zeros, or none where memory is wanting.
pub(crate) fn add_pages(table: &mut Vec<Page>, count: usize) -> bool
    requires whole { AllWhole table.old.items }
    requires small { count ≤ 4096 }
    ensures contents { IsTrue result
        → contents table.new.items ≡ contents table.old.items ++ replicate (65536 * count) 0 }
    ensures whole { IsTrue result → AllWhole table.new.items }
    ensures made { IsTrue result → map is_some table.new.items
        ≡ map is_some table.old.items ++ replicate count false }
    ensures refused { (result ≡ false) → table.new.items ≡ table.old.items }
{
    push_absent(table, count)
}

// The number of `width` bytes from `at` on, within one page.
#[tactic(auto, using(crate::proofs::LowBytes::zero_fits))]
#[inline(always)]
pub(crate) fn load_in(pages: &[Page], at: usize, width: usize) -> u64
    requires whole { AllWhole pages.now }
    requires width { IsWidth width }
    requires inside { (at / 65536 < length pages.now) × (at % 65536 + width ≤ 65536) }
    ensures value { result ≡ from_bytes (window (contents pages.now) at width) }
    ensures fits { result < 256 ^ width }
{
    match pages[at / 65536].bytes() {
        Some(bytes) => read_word(bytes, at % 65536, width),
        None => 0,
    }
}

// Stores the number where its bytes lie in one page that is made.
#[inline(always)]
pub(crate) fn store_in(pages: &mut [Page], at: usize, width: usize, value: u64) -> bool
    requires whole { AllWhole pages.old }
    requires width { IsWidth width }
    ensures stored { IsTrue result
        → (contents pages.new ≡ splice (contents pages.old) at (to_bytes width value))
        × AllWhole pages.new × (map is_some pages.new ≡ map is_some pages.old)
        × AllMade (map is_some pages.new) at width × (at + width ≤ 65536 * length pages.old) }
    ensures refused { (result ≡ false) → pages.new ≡ pages.old }
{
    if at / 65536 < pages.len() && at % 65536 + width <= 65536 && pages[at / 65536].is_made() {
        pages[at / 65536].store(at % 65536, width, value);
        true
    } else {
        false
    }
}

// The bytes of a page that is made.
pub(crate) fn bytes_at(pages: &[Page], index: usize) -> Option<&[u8]>
    requires whole { AllWhole pages.now }
    requires inside { index < length pages.now }
    ensures made { IsSome result ↔ IsMade (map is_some pages.now) index }
    ensures shown { IfSome result
        (λ bytes. bytes.now ≡ window (contents pages.now) (65536 * index) 65536) }
    ensures absent { IfNone result
        (window (contents pages.now) (65536 * index) 65536 ≡ replicate 65536 0) }
{
    match pages[index].bytes() {
        Some(bytes) => Some(bytes),
        None => None,
    }
}

// Sets the `len` bytes from `at` on, within one page.
fn fill_in(pages: &mut [Page], at: usize, byte: u8, len: usize)
    requires whole { AllWhole pages.old }
    requires inside { (at / 65536 < length pages.old) × (at % 65536 + len ≤ 65536) }
    requires made { IsMade (map is_some pages.old) (at / 65536) }
    ensures contents { contents pages.new ≡ splice (contents pages.old) at (replicate len byte) }
    ensures whole { AllWhole pages.new }
    ensures made { map is_some pages.new ≡ map is_some pages.old }
{
    pages[at / 65536].fill(at % 65536, byte, len);
}

// Sets the `len` bytes from `at` on, in pages that are made.
pub(crate) fn fill_all(pages: &mut [Page], at: usize, byte: u8, len: usize)
    requires whole { AllWhole pages.old }
    requires inside { at + len ≤ 65536 * length pages.old }
    requires small { length pages.old ≤ 4096 }
    requires made { AllMade (map is_some pages.old) at len }
    ensures contents { contents pages.new ≡ splice (contents pages.old) at (replicate len byte) }
    ensures whole { AllWhole pages.new }
    ensures made { map is_some pages.new ≡ map is_some pages.old }
{
    if len == 0 {
        return;
    }
    let step = len.min(65536 - at % 65536);
    fill_in(pages, at, byte, step);
    fill_all(pages, at + step, byte, len - step);
}

// A table of equal pages.
pub(crate) fn copy_table(pages: &[Page], alloc: Global) -> Result<Vec<Page>, AllocError>
    ensures { IfOk result (λ table. table.items ≡ pages.now) }
{
    let mut table = Vec::new(alloc);
    for page in pages {
        table.push(page.copy_of(alloc)?)?;
    }
    Ok(table)
}

// Copies the `len` bytes from `from` on to `to`, as they were before, into pages that are made.
pub(crate) fn move_all(pages: &mut [Page], to: usize, from: usize, len: usize)
    requires whole { AllWhole pages.old }
    requires inside { (to + len ≤ 65536 * length pages.old)
        × (from + len ≤ 65536 * length pages.old) }
    requires small { length pages.old ≤ 4096 }
    requires made { AllMade (map is_some pages.old) to len }
    ensures contents { contents pages.new
        ≡ splice (contents pages.old) to (window (contents pages.old) from len) }
    ensures whole { AllWhole pages.new }
    ensures made { map is_some pages.new ≡ map is_some pages.old }
{
    if to <= from {
        let mut done = 0;
        while done < len {
            let step = move_part(pages, to + done, from + done, (len - done).min(PART));
            done += step;
        }
    } else {
        let mut left = len;
        while left > 0 {
            let part = left.min(PART);
            let step = move_part(pages, to + left - part, from + left - part, part);
            left -= step;
        }
    }
}

const PART: usize = 1024;

// The same of a part, through a buffer. Returns its length.
fn move_part(pages: &mut [Page], to: usize, from: usize, len: usize) -> usize
    requires whole { AllWhole pages.old }
    requires inside { (to + len ≤ 65536 * length pages.old)
        × (from + len ≤ 65536 * length pages.old) }
    requires small { (length pages.old ≤ 4096) × (len ≤ 1024) }
    requires made { AllMade (map is_some pages.old) to len }
    ensures contents { contents pages.new
        ≡ splice (contents pages.old) to (window (contents pages.old) from len) }
    ensures whole { AllWhole pages.new }
    ensures made { map is_some pages.new ≡ map is_some pages.old }
    ensures len { result ≡ len }
{
    let mut part = [0u8; PART];
    read_all(pages, from, &mut part[..len]);
    put_all(pages, to, &part[..len]);
    len
}

//! A memory as a table of pages.

ghost use Rattle.std.specs.Prelude.{◌≡◌, ◌+◌, ◌*◌, ◌^◌, ◌<◌, ◌≤◌, ◌↔◌, ◌⊎◌, length, replicate, false, IfOk, OnOk};
ghost use Rattle.std.specs.Prelude.{OnErr, IfSome, IfNone, IsSome, Some};
ghost use Rattle.linear_memory.specs.Memory.{page_size, pages, zeroed, window, to_bytes, load, store, put, fill, copy};
ghost use Rattle.linear_memory.specs.calls.Paged.{IsWidth, IsMade, AllMade, Makes};
ghost use Rattle.linear_memory.specs.calls.Growth.{Grows};

use crate::changes::{copy_bytes, fill_bytes, put_bytes};
use crate::page::Page;
use crate::table::{add_pages, bytes_at, copy_table, load_in, read_all, store_in};
use crate::words::read_word;
use crate::{GrowAnswer, StoreFault};
use causes::NoMemory;
use std::alloc::Global;
use std::marker::Model;

/// A linear memory. Contracts see its bytes, its maximum in pages, and which pages are made. A page
/// takes memory when it is made, at its first write; until then it reads as zeros. A page stays
/// where it is until the memory is dropped.
#[derive(Drop)]
pub struct Memory {
    pages: Vec<Page>,
    max: u32,
    alloc: Global,
}

impl Model for Memory {
    ghost use Rattle.std.specs.Prelude.{◌≤◌, length, map, is_some};
    ghost use Rattle.linear_memory.specs.calls.Paged.{Paged};
    ghost use Rattle.linear_memory.specs.inner.Table.{contents, AllWhole};

    ghost Value = { Paged };

    ghost view = { λ a. record {
      memory = record { bytes = contents a.pages.items; max = a.max };
      made = map is_some a.pages.items;
    } };

    ghost invariant = { λ a. AllWhole a.pages.items × (length a.pages.items ≤ a.max)
        × (a.max ≤ 4096) };
}

impl Memory {
    /// A memory of zeros. `pages` is its size, and `max` the most that it may have, both in pages.
    /// No page is made.
    pub fn new(alloc: Global, pages: u32, max: u32) -> Result<Memory, NoMemory>
        requires { (pages ≤ max) × (max ≤ 4096) }
        ensures memory { IfOk result (λ m. m.memory ≡ zeroed pages max) }
        ensures made { IfOk result (λ m. m.made ≡ replicate pages false) }
    {
        let mut table = Vec::new(alloc);
        if !add_pages(&mut table, pages as usize) {
            return Err(NoMemory);
        }
        Ok(Memory {
            pages: table,
            max,
            alloc,
        })
    }

    /// The size in pages.
    #[tactic(auto, using(crate::proofs::Contents::length_of_contents))]
    pub fn size(&self) -> u32
        ensures size { result ≡ pages self.now.memory }
        ensures bytes { length self.now.memory.bytes ≡ page_size * result }
        ensures made { length self.now.made ≡ result }
        ensures limit { (result ≤ self.now.memory.max) × (self.now.memory.max ≤ 4096) }
    {
        self.pages.len() as u32
    }

    /// The number in the `width` bytes from `at` on, the lowest first. None past the end (Core
    /// 4.4.4, `load`).
    #[tactic(auto, using(crate::proofs::Contents::length_of_contents))]
    #[inline(always)]
    pub fn load(&self, at: u64, width: u32) -> Option<u64>
        requires { IsWidth width }
        ensures value { result ≡ load self.now.memory at width }
        ensures fits { IfSome result (λ value. value < 256 ^ width) }
    {
        let width = width as usize;
        if at / 65536 < self.pages.len() as u64 && (at % 65536) as usize + width <= 65536 {
            Some(load_in(&self.pages, at as usize, width))
        } else {
            self.load_across(at, width)
        }
    }

    #[tactic(auto, using(crate::proofs::Contents::length_of_contents))]
    #[cold]
    #[inline(never)]
    fn load_across(&self, at: u64, width: usize) -> Option<u64>
        requires { IsWidth width }
        ensures value { result ≡ load self.now.memory at width }
        ensures fits { IfSome result (λ value. value < 256 ^ width) }
    {
        let end = 65536 * self.pages.len() as u64;
        if at <= end && width as u64 <= end - at {
            let mut word = [0u8; 8];
            read_all(&self.pages, at as usize, &mut word[..width]);
            Some(read_word(&word, 0, width))
        } else {
            None
        }
    }

    /// Writes the `width` lowest bytes of a number from `at` on, the lowest first (Core 4.4.4,
    /// `store`).
    #[inline(always)]
    pub fn store(&mut self, at: u64, width: u32, value: u64) -> Result<(), StoreFault>
        requires { IsWidth width }
        ensures out { (result ≡ Err StoreFault.Out) ↔ (length self.old.memory.bytes < at + width) }
        ensures memory { OnOk result (store self.old.memory at width value ≡ Some self.new.memory) }
        ensures made { OnOk result (Makes self.old.made self.new.made at width) }
        ensures refused { OnErr result (self.new ≡ self.old) }
        ensures takes { AllMade self.old.made at width → ¬ (result ≡ Err StoreFault.NoMemory) }
    {
        if store_in(&mut self.pages, at as usize, width as usize, value) {
            Ok(())
        } else {
            self.write(at, &value.to_le_bytes()[..width as usize])
        }
    }

    /// Writes bytes from `at` on, all of them or none.
    #[inline(never)]
    pub fn write(&mut self, at: u64, bytes: &[u8]) -> Result<(), StoreFault>
        ensures out { (result ≡ Err StoreFault.Out) ↔
            (length self.old.memory.bytes < at + length bytes.now) }
        ensures memory { OnOk result (put self.old.memory at bytes.now ≡ Some self.new.memory) }
        ensures made { OnOk result (Makes self.old.made self.new.made at (length bytes.now)) }
        ensures refused { OnErr result (self.new ≡ self.old) }
        ensures takes { AllMade self.old.made at (length bytes.now)
            → ¬ (result ≡ Err StoreFault.NoMemory) }
    {
        put_bytes(&mut self.pages, self.alloc, at, bytes)
    }

    /// Sets `len` bytes from `at` on (Core 2.0 4.4.7, `memory.fill`).
    pub fn fill(&mut self, at: u64, byte: u8, len: u64) -> Result<(), StoreFault>
        ensures out { (result ≡ Err StoreFault.Out) ↔ (length self.old.memory.bytes < at + len) }
        ensures memory { OnOk result (fill self.old.memory at byte len ≡ Some self.new.memory) }
        ensures made { OnOk result (Makes self.old.made self.new.made at len) }
        ensures refused { OnErr result (self.new ≡ self.old) }
        ensures takes { AllMade self.old.made at len → ¬ (result ≡ Err StoreFault.NoMemory) }
    {
        fill_bytes(&mut self.pages, self.alloc, at, byte, len)
    }

    /// Copies `len` bytes from `from` on, as they were before the call, to `to` (Core 2.0 4.4.7,
    /// `memory.copy`).
    pub fn copy(&mut self, to: u64, from: u64, len: u64) -> Result<(), StoreFault>
        ensures out { (result ≡ Err StoreFault.Out) ↔
            ((length self.old.memory.bytes < to + len)
            ⊎ (length self.old.memory.bytes < from + len)) }
        ensures memory { OnOk result (copy self.old.memory to from len ≡ Some self.new.memory) }
        ensures made { OnOk result (Makes self.old.made self.new.made to len) }
        ensures refused { OnErr result (self.new ≡ self.old) }
        ensures takes { AllMade self.old.made to len → ¬ (result ≡ Err StoreFault.NoMemory) }
    {
        copy_bytes(&mut self.pages, self.alloc, to, from, len)
    }

    /// Adds pages of zeros, none of them made (Core 4.4.4, `memory.grow`).
    #[tactic(auto, using(crate::proofs::Contents::length_of_contents))]
    pub fn grow(&mut self, count: u32) -> GrowAnswer
        ensures too_many { (result ≡ GrowAnswer.TooMany) ↔
            (self.old.memory.max < pages self.old.memory + count) }
        ensures growth { Grows result self.old self.new count }
    {
        let before = self.pages.len() as u32;
        if count > self.max - before {
            return GrowAnswer::TooMany;
        }
        if !add_pages(&mut self.pages, count as usize) {
            return GrowAnswer::NoMemory;
        }
        GrowAnswer::Grown(before)
    }

    /// The 65,536 bytes of a page that is made. A page that is not made has zeros.
    #[tactic(auto, using(crate::proofs::Contents::length_of_contents))]
    pub fn page(&self, index: u32) -> Option<&[u8]>
        requires { index < pages self.now.memory }
        ensures made { IsSome result ↔ IsMade self.now.made index }
        ensures shown { IfSome result
            (λ bytes. bytes.now ≡ window self.now.memory.bytes (page_size * index) page_size) }
        ensures absent { IfNone result
            (window self.now.memory.bytes (page_size * index) page_size ≡ replicate page_size 0) }
    {
        bytes_at(&self.pages, index as usize)
    }

    /// A memory of its own with equal bytes, maximum and made pages.
    pub fn copy_of(&self) -> Result<Memory, NoMemory>
        ensures { IfOk result (λ m. m ≡ self.now) }
    {
        match copy_table(&self.pages, self.alloc) {
            Ok(pages) => Ok(Memory {
                pages,
                max: self.max,
                alloc: self.alloc,
            }),
            Err(_) => Err(NoMemory),
        }
    }
}

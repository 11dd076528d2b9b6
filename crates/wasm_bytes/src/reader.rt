//! A reader of items, from left to right.

ghost use Rattle.std.specs.Prelude.{◌==◌, ◌-◌, ◌≡◌, ◌≤◌, List, length, OnOk};
ghost use Rattle.wasm_bytes.specs.Place.{Moves, Stays};
ghost use Rattle.wasm_bytes.specs.Reading.{byte_item, fixed_item, bytes_item, u32_item, u64_item, s32_item, s64_item};
ghost use Rattle.wasm_bytes.specs.Reading.{run_item, sized_run_item, name_item, named_item, if_inside, block_item};
ghost use Rattle.wasm_bytes.specs.Reading.{end_item, rest_item};
ghost use Rattle.wasm_bytes.specs.calls.Answers.{Reads, result_now};

use crate::faults::Malformed;
use std::marker::Model;
use wasm_leb::{read_s32, read_s64, read_u32, read_u64};

/// A place in a block, which is all bytes of the input up to the block's end.
#[derive(Drop)]
pub struct Reader<'a> {
    block: &'a [u8],
    at: usize,
}

impl<'a> Model for Reader<'a> {
    ghost use Rattle.std.specs.Prelude.{◌≤◌, length};
    ghost use Rattle.wasm_bytes.specs.Place.{Place};

    ghost Value = { Place };

    ghost view = { λ r. record { block = r.block.now; at = r.at } };

    ghost invariant = { λ r. r.at ≤ length r.block.now };
}

impl<'a> Reader<'a> {
    /// The place at the front of an input.
    pub fn new(bytes: &'a [u8]) -> Self
        ensures { result ≡ record { block = bytes.now; at = 0 } }
    {
        Reader {
            block: bytes,
            at: 0,
        }
    }

    /// A place in an input.
    pub fn starting_at(bytes: &'a [u8], at: usize) -> Self
        requires { at ≤ length bytes.now }
        ensures { result ≡ record { block = bytes.now; at = at } }
    {
        Reader { block: bytes, at }
    }

    /// Another reader at the same place.
    pub fn fork(&self) -> Reader<'a>
        ensures { result ≡ self.now }
    {
        Reader {
            block: self.block,
            at: self.at,
        }
    }

    /// Where it stands, in bytes from the first byte of the input.
    pub fn at(&self) -> usize
        ensures is { result ≡ self.now.at }
        ensures inside { self.now.at ≤ length self.now.block }
    {
        self.at
    }

    /// The offset behind the block, in bytes from the first byte of the input.
    pub fn end_at(&self) -> usize
        ensures { result ≡ length self.now.block }
    {
        self.block.len()
    }

    /// How many bytes are left of the block.
    pub fn left(&self) -> usize
        ensures { result ≡ length self.now.block - self.now.at }
    {
        self.block.len() - self.at
    }

    /// Nothing is left of the block.
    pub fn is_at_end(&self) -> bool
        ensures { result ≡ (self.now.at == length self.now.block) }
    {
        self.at == self.block.len()
    }

    #[tactic(auto, unfolding(crate::specs::Reading::byte_item))]
    pub fn byte(&mut self) -> Result<u8, Malformed>
        ensures item { Reads result self.new (byte_item self.old) }
        ensures moves { OnOk result (Moves self.old self.new) }
    {
        match self.block.get(self.at) {
            Some(byte) => {
                self.at += 1;
                Ok(*byte)
            }
            None => Err(Malformed { at: self.at }),
        }
    }

    /// A byte that has to be this one.
    #[tactic(auto, unfolding(crate::specs::Reading::byte_item, crate::specs::Reading::one_of_item, crate::specs::Reading::fixed_item))]
    pub fn fixed(&mut self, byte: u8) -> Result<(), Malformed>
        ensures item { Reads result self.new (fixed_item byte self.old) }
        ensures moves { OnOk result (Moves self.old self.new) }
    {
        if self.block.get(self.at) != Some(&byte) {
            return Err(Malformed { at: self.at });
        }
        self.at += 1;
        Ok(())
    }

    /// Bytes that have to be these, each an item.
    pub fn bytes(&mut self, expected: &[u8]) -> Result<(), Malformed>
        ensures item { Reads result self.new (bytes_item expected.now self.old) }
        ensures stays { OnOk result (Stays self.old self.new) }
    {
        for byte in expected {
            self.fixed(*byte)?;
        }
        Ok(())
    }

    /// An unsigned number of 32 bits in LEB128 (Core 5.2.2).
    #[tactic(auto, unfolding(crate::specs::Reading::u32_item))]
    pub fn u32(&mut self) -> Result<u32, Malformed>
        ensures item { Reads result self.new (u32_item self.old) }
        ensures moves { OnOk result (Moves self.old self.new) }
    {
        match read_u32(self.block, self.at) {
            Ok((value, next)) => {
                self.at = next;
                Ok(value)
            }
            Err(_) => Err(Malformed { at: self.at }),
        }
    }

    /// An unsigned number of 64 bits in LEB128 (Core 5.2.2).
    #[tactic(auto, unfolding(crate::specs::Reading::u64_item))]
    pub fn u64(&mut self) -> Result<u64, Malformed>
        ensures item { Reads result self.new (u64_item self.old) }
        ensures moves { OnOk result (Moves self.old self.new) }
    {
        match read_u64(self.block, self.at) {
            Ok((value, next)) => {
                self.at = next;
                Ok(value)
            }
            Err(_) => Err(Malformed { at: self.at }),
        }
    }

    /// A signed number of 32 bits in LEB128 (Core 5.2.2).
    #[tactic(auto, unfolding(crate::specs::Reading::s32_item))]
    pub fn s32(&mut self) -> Result<i32, Malformed>
        ensures item { Reads result self.new (s32_item self.old) }
        ensures moves { OnOk result (Moves self.old self.new) }
    {
        match read_s32(self.block, self.at) {
            Ok((value, next)) => {
                self.at = next;
                Ok(value)
            }
            Err(_) => Err(Malformed { at: self.at }),
        }
    }

    /// A signed number of 64 bits in LEB128 (Core 5.2.2).
    #[tactic(auto, unfolding(crate::specs::Reading::s64_item))]
    pub fn s64(&mut self) -> Result<i64, Malformed>
        ensures item { Reads result self.new (s64_item self.old) }
        ensures moves { OnOk result (Moves self.old self.new) }
    {
        match read_s64(self.block, self.at) {
            Ok((value, next)) => {
                self.at = next;
                Ok(value)
            }
            Err(_) => Err(Malformed { at: self.at }),
        }
    }

    /// A run of bytes of known length.
    #[tactic(auto, unfolding(crate::specs::Reading::run_item))]
    pub fn run(&mut self, len: usize) -> Result<&'a [u8], Malformed>
        ensures item { Reads (result_now result) self.new (run_item len self.old) }
        ensures stays { OnOk result (Stays self.old self.new) }
    {
        if len > self.block.len() - self.at {
            return Err(Malformed { at: self.at });
        }
        let bytes = &self.block[self.at..self.at + len];
        self.at += len;
        Ok(bytes)
    }

    /// A length, and a run of as many bytes, which begins behind the length.
    #[tactic(auto, unfolding(crate::specs::Reading::sized_run_item))]
    pub fn sized_run(&mut self) -> Result<&'a [u8], Malformed>
        ensures item { Reads (result_now result) self.new (sized_run_item self.old) }
        ensures moves { OnOk result (Moves self.old self.new) }
    {
        let len = self.u32()?;
        self.run(len as usize)
    }

    /// A name: a length, and as many bytes of UTF-8 (Core 5.2.4). It is one item, which begins at
    /// its length.
    #[tactic(auto, using(pm_text::proofs::Utf8::utf8_tests), unfolding(crate::specs::Reading::name_item))]
    pub fn name(&mut self) -> Result<&'a str, Malformed>
        ensures item { Reads (result_now result) self.new (name_item self.old) }
        ensures moves { OnOk result (Moves self.old self.new) }
    {
        let start = self.at;
        let Ok(bytes) = self.sized_run() else {
            return Err(Malformed { at: start });
        };
        match str::from_utf8(bytes) {
            Ok(text) => Ok(text),
            Err(_) => Err(Malformed { at: start }),
        }
    }

    /// A name that has to be this one.
    #[tactic(auto, unfolding(crate::specs::Reading::named_item))]
    pub fn named(&mut self, title: &[u8]) -> Result<(), Malformed>
        ensures item { Reads result self.new (named_item title.now self.old) }
        ensures moves { OnOk result (Moves self.old self.new) }
    {
        let start = self.at;
        if self.name()?.as_bytes() == title {
            Ok(())
        } else {
            Err(Malformed { at: start })
        }
    }

    /// A reader of the block that a size opens. This one goes on behind the block.
    #[tactic(auto, unfolding(crate::specs::Reading::block_item))]
    pub fn open(&mut self) -> Result<Reader<'a>, Malformed>
        ensures item { Reads result self.new (block_item self.old) }
        ensures moves { OnOk result (Moves self.old self.new) }
    {
        let start = self.at;
        let size = self.u32()?;
        self.cut(u64::from(size), start)
    }

    /// A reader of the block of so many bytes that begins here. This one goes on behind the block.
    /// The error is the offset that is given, where the block does not end inside this one.
    pub fn cut(&mut self, len: u64, at: usize) -> Result<Reader<'a>, Malformed>
        ensures item { Reads result self.new (if_inside at (len, self.old)) }
        ensures stays { OnOk result (Stays self.old self.new) }
    {
        if len > (self.block.len() - self.at) as u64 {
            return Err(Malformed { at });
        }
        let end = self.at + len as usize;
        let inner = Reader {
            block: &self.block[..end],
            at: self.at,
        };
        self.at = end;
        Ok(inner)
    }

    /// The block is complete.
    #[tactic(auto, unfolding(crate::specs::Reading::end_item))]
    pub fn end(&mut self) -> Result<(), Malformed>
        ensures item { Reads result self.new (end_item self.old) }
        ensures stays { OnOk result (Stays self.old self.new) }
    {
        if self.at == self.block.len() {
            Ok(())
        } else {
            Err(Malformed { at: self.at })
        }
    }

    /// All bytes up to the end of the block.
    #[tactic(auto, unfolding(crate::specs::Reading::rest_item))]
    pub fn rest(&mut self) -> &'a [u8]
        ensures item { rest_item self.old ≡ Ok (result.now, self.new) }
        ensures stays { Stays self.old self.new }
    {
        let bytes = &self.block[self.at..];
        self.at = self.block.len();
        bytes
    }
}

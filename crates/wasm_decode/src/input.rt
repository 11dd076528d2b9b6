//! A place in an input of fewer than 2^32 bytes.

ghost use Rattle.std.specs.Prelude.{◌≡◌, ◌+◌, ◌-◌, ◌^◌, ◌<◌, ◌≤◌, length, get_or, take, Ok, OnOk};
ghost use Rattle.wasm_bytes.specs.Place.{Moves, Stays};
ghost use Rattle.wasm_bytes.specs.Reading.{byte_item, fixed_item, bytes_item, u32_item, block_item, end_item};
ghost use Rattle.wasm_bytes.specs.Reading.{rest_item};
ghost use Rattle.wasm_bytes.specs.calls.Answers.{Reads, Gives};
ghost use Rattle.wasm_format.specs.Reading.{code_item, beside};

use std::alloc::Global;
use std::marker::Model;
use wasm_bytes::{Cursor, Item, ItemFault, Malformed, Reader};
use wasm_format::{Code, read_code};
use wasm_syntax::Labels;

/// A place in a block, which is all bytes of an input up to the block's end, and has fewer than
/// 2^32 bytes. Where an item has no reading it stays where it was.
#[derive(Drop)]
pub struct Input<'a> {
    block: &'a [u8],
    at: u32,
}

impl<'a> Model for Input<'a> {
    ghost use Rattle.std.specs.Prelude.{◌≤◌, ◌<◌, ◌^◌, length};
    ghost use Rattle.wasm_bytes.specs.Place.{Place};

    ghost Value = { Place };

    ghost view = { λ r. record { block = r.block.now; at = r.at } };

    ghost invariant = { λ r. (r.at ≤ length r.block.now) × (length r.block.now < 2 ^ 32) };
}

impl<'a> Input<'a> {
    /// The place at the front of an input.
    pub fn new(bytes: &'a [u8]) -> Self
        requires { length bytes.now < 2 ^ 32 }
        ensures { result ≡ record { block = bytes.now; at = 0 } }
    {
        Input {
            block: bytes,
            at: 0,
        }
    }

    /// A place in an input, in a block that ends at an offset.
    pub fn between(bytes: &'a [u8], at: u32, end: usize) -> Self
        requires order { at ≤ end }
        requires inside { end ≤ length bytes.now }
        requires small { length bytes.now < 2 ^ 32 }
        ensures { result ≡ record { block = take end bytes.now; at = at } }
    {
        Input {
            block: &bytes[..end],
            at,
        }
    }

    fn reader(&self) -> Reader<'a>
        ensures { result ≡ self.now }
    {
        Reader::starting_at(self.block, self.at as usize)
    }

    /// Where it stands, in bytes from the first byte of the input.
    pub fn at(&self) -> u32
        ensures is { result ≡ self.now.at }
        ensures inside { self.now.at ≤ length self.now.block }
        ensures small { length self.now.block < 2 ^ 32 }
    {
        self.at
    }

    /// How many bytes are left of the block.
    pub fn left(&self) -> usize
        ensures { result ≡ length self.now.block - self.now.at }
    {
        self.block.len() - self.at as usize
    }

    /// The byte that stands here, or 0 at the end of the block.
    pub fn first(&self) -> u8
        ensures { result ≡ get_or self.now.block self.now.at 0 }
    {
        match self.block.get(self.at as usize) {
            Some(byte) => *byte,
            None => 0,
        }
    }

    /// Reads a value.
    pub fn item<T: Item<Reader<'a>>>(&mut self, alloc: Global) -> Result<T::Value, ItemFault>
        ensures item { Gives result self.new (T.item self.old) }
        ensures moves { OnOk result (Moves self.old self.new) }
    {
        let mut reader = self.reader();
        let value = T::read(alloc, &mut reader)?;
        self.at = reader.at() as u32;
        Ok(value)
    }

    pub fn byte(&mut self) -> Result<u8, Malformed>
        ensures item { Reads result self.new (byte_item self.old) }
        ensures moves { OnOk result (Moves self.old self.new) }
    {
        let mut reader = self.reader();
        let byte = reader.byte()?;
        self.at = reader.at() as u32;
        Ok(byte)
    }

    /// A byte that has to be this one.
    pub fn fixed(&mut self, byte: u8) -> Result<(), Malformed>
        ensures item { Reads result self.new (fixed_item byte self.old) }
        ensures moves { OnOk result (Moves self.old self.new) }
    {
        let mut reader = self.reader();
        reader.fixed(byte)?;
        self.at = reader.at() as u32;
        Ok(())
    }

    /// Bytes that have to be these, each an item.
    pub fn bytes(&mut self, expected: &[u8]) -> Result<(), Malformed>
        ensures item { Reads result self.new (bytes_item expected.now self.old) }
        ensures stays { OnOk result (Stays self.old self.new) }
    {
        let mut reader = self.reader();
        reader.bytes(expected)?;
        self.at = reader.at() as u32;
        Ok(())
    }

    /// An unsigned number of 32 bits in LEB128 (Core 5.2.2).
    pub fn u32(&mut self) -> Result<u32, Malformed>
        ensures item { Reads result self.new (u32_item self.old) }
        ensures moves { OnOk result (Moves self.old self.new) }
    {
        let mut reader = self.reader();
        let number = reader.u32()?;
        self.at = reader.at() as u32;
        Ok(number)
    }

    /// The block that a size opens. This place goes on behind the block.
    #[tactic(auto, unfolding(wasm_bytes::specs::Reading::block_item))]
    pub fn open(&mut self) -> Result<Input<'a>, Malformed>
        ensures item { Reads result self.new (block_item self.old) }
        ensures moves { OnOk result (Moves self.old self.new) }
    {
        let mut reader = self.reader();
        let size = reader.u32()?;
        let at = reader.at();
        if size as usize > self.block.len() - at {
            return Err(Malformed {
                at: self.at as usize,
            });
        }
        let end = at + size as usize;
        self.at = end as u32;
        Ok(Input {
            block: &self.block[..end],
            at: at as u32,
        })
    }

    /// The block is complete.
    #[tactic(auto, unfolding(wasm_bytes::specs::Reading::end_item))]
    pub fn end(&self) -> Result<(), Malformed>
        ensures { Reads result self.now (end_item self.now) }
    {
        if self.at as usize == self.block.len() {
            Ok(())
        } else {
            Err(Malformed {
                at: self.at as usize,
            })
        }
    }

    /// All bytes up to the end of the block.
    #[tactic(auto, unfolding(wasm_bytes::specs::Reading::rest_item))]
    pub fn rest(&mut self) -> &'a [u8]
        ensures item { rest_item self.old ≡ Ok (result.now, self.new) }
        ensures stays { Stays self.old self.new }
    {
        let bytes = &self.block[self.at as usize..];
        self.at = self.block.len() as u32;
        bytes
    }

    /// The instruction that stands here (Core 5.4). The targets of a `br_table` are added to those
    /// before it, and each of them takes a byte or more.
    pub fn code(&mut self, targets: &mut Labels) -> Result<Code, ItemFault>
        requires { length targets.old < 2 ^ 32 }
        ensures item { Gives (beside targets.new result) self.new (code_item targets.old self.old) }
        ensures moves { OnOk result (Moves self.old self.new) }
        ensures bounded { OnOk result
            (length targets.new + self.old.at ≤ length targets.old + self.new.at) }
    {
        let mut reader = self.reader();
        let code = read_code(targets, &mut reader)?;
        self.at = reader.at() as u32;
        Ok(code)
    }
}

impl<'a> Cursor for Input<'a> {
    ghost place = { λ input. input };

    fn count(&mut self) -> Result<u32, Malformed> {
        self.u32()
    }
}

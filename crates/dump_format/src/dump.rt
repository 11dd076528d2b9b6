//! What a dump says.

use pm_text::{Items, Text};
use std::marker::Model;
use wasm_syntax::{Seen, Value};

pub type Texts = Items<Text>;

pub type Indices = Items<u32>;

pub type Values = Items<Value>;

pub type Seens = Items<Seen>;

pub type Instances = Items<Instance>;

pub type Frames = Items<Frame>;

pub type Segments<'a> = Items<Segment<'a>>;

/// An instance of a module, by indices into the lists of a dump.
#[derive(Drop)]
pub struct Instance {
    pub module: u32,
    pub memories: Indices,
    pub globals: Indices,
}

/// A frame of the call stack.
#[derive(Drop)]
pub struct Frame {
    pub instance: u32,
    pub function: u32,
    /// In bytes, from the first byte behind the size of the function's code entry.
    pub offset: u32,
    pub locals: Seens,
    /// The bottom operand first.
    pub operands: Seens,
}

/// Bytes of a memory, which contracts see as an address and a list.
#[derive(Drop)]
pub struct Segment<'a> {
    /// The address of the first byte.
    pub at: u32,
    pub bytes: &'a [u8],
}

impl<'a> Model for Segment<'a> {
    ghost use Rattle.dump_format.specs.Region.{Region};

    ghost Value = { Region };

    ghost view = { λ s. record { at = s.at; bytes = s.bytes.now } };
}

/// A core dump (tool-conventions Coredump.md).
#[derive(Drop)]
pub struct Dump<'a> {
    /// The name of the program.
    pub name: Text,
    /// The names of the modules.
    pub modules: Texts,
    pub instances: Instances,
    /// The frames of the thread, innermost first.
    pub frames: Frames,
    /// The size of the memory, in pages of 65,536 bytes.
    pub memory: Option<u32>,
    pub globals: Values,
    /// Later segments write over earlier ones; all other bytes are zero.
    pub segments: Segments<'a>,
}

//! What an expression sees of a frame.

ghost use Rattle.std.specs.Prelude.{◌≡◌};
ghost use Rattle.linear_memory.specs.calls.Paged.{IsWidth};
ghost use Rattle.dwarf_expr.specs.Meaning.{read_memory};

use crate::effects::Event;
use linear_memory::Memory;
use std::marker::Model;
use wasm_syntax::Seen;

/// What is recorded of a frame. An empty list is not recorded.
#[derive(Drop)]
pub struct FrameView<'a> {
    pub locals: &'a [Seen],
    /// The bottom operand first.
    pub operands: &'a [Seen],
    pub globals: &'a [Seen],
    pub memory: Option<&'a Memory>,
}

impl<'a> Model for FrameView<'a> {
    ghost use Rattle.std.specs.Prelude.{option_map};
    ghost use Rattle.dwarf_expr.specs.View.{View};

    ghost Value = { View };

    ghost view = { λ v. record {
      locals = v.locals.now;
      operands = v.operands.now;
      globals = v.globals.now;
      memory = option_map (λ m. m.now.memory) v.memory;
    } };
}

impl<'a> FrameView<'a> {
    /// The number in the `width` bytes from an address on, the lowest first: all that an expression
    /// asks of a memory.
    pub(crate) fn load(&self, address: u32, width: u32) -> Result<u64, Event>
        requires { IsWidth width }
        ensures { result ≡ read_memory self.now.memory address width }
    {
        let Some(memory) = self.memory else {
            return Err(Event::Missing);
        };
        match memory.load(u64::from(address), width) {
            Some(word) => Ok(word),
            None => Err(Event::Outside(address)),
        }
    }
}

//! Operands and locals are handed over to the collector.

ghost use Rattle.std.specs.Prelude.{◌≤◌, length, OnOk};
ghost use Rattle.rewrite_bodies.specs.calls.Slots.{place_type};
ghost use Rattle.rewrite_bodies.specs.calls.Pieces.{fetch};
ghost use Rattle.rewrite_bodies.specs.calls.Rewrite.{hand, hand_locals, hand_top, hand_value};
ghost use Rattle.rewrite_code.specs.calls.Writing.{Emits};
ghost use Rattle.rewrite_code.specs.calls.Places.{place};

use crate::CodeWriter;
use crate::context::FunctionContext;
use crate::place::{OperandPlace, OperandPlaces};
use causes::NoMemory;
use wasm_syntax::Basic;

impl<'m, 'a> FunctionContext<'m, 'a> {
    /// The operand at a height.
    pub fn hand_one(
        &self,
        writer: &mut CodeWriter,
        operand: OperandPlace,
        height: usize,
    ) -> Result<(), NoMemory>
        requires { height ≤ self.now.slots }
        ensures { OnOk result (Emits
            (λ k. fetch self.now (place operand) height
            (hand_value self.now (place_type (place operand)) k)) writer.old writer.new) }
    {
        self.fetch(writer, operand, height)?;
        self.hand_value(writer, operand.value_type())
    }

    /// So many topmost operands, the lowest first, or all where there are not so many.
    pub fn hand_top(
        &self,
        writer: &mut CodeWriter,
        count: usize,
        places: &OperandPlaces,
    ) -> Result<(), NoMemory>
        requires { length places.now ≤ self.now.slots }
        ensures { OnOk result (Emits (hand_top self.now count places.now) writer.old writer.new) }
    {
        let operands = places.as_slice();
        let first = operands.len().saturating_sub(count);
        for height in first..operands.len() {
            self.hand_one(writer, operands[height], height)?;
        }
        Ok(())
    }

    /// All operands, the lowest first.
    pub fn hand(&self, writer: &mut CodeWriter, places: &OperandPlaces) -> Result<(), NoMemory>
        requires { length places.now ≤ self.now.slots }
        ensures { OnOk result (Emits (hand self.now places.now) writer.old writer.new) }
    {
        self.hand_top(writer, places.len(), places)
    }

    /// All locals of the function, the first one first.
    pub fn hand_locals(&self, writer: &mut CodeWriter) -> Result<(), NoMemory>
        ensures { OnOk result (Emits (hand_locals self.now 0 self.now.locals) writer.old
            writer.new) }
    {
        let types = self.locals();
        for x in 0..types.len() {
            writer.basic(Basic::LocalGet(x as u32))?;
            self.hand_value(writer, types[x])?;
        }
        Ok(())
    }
}

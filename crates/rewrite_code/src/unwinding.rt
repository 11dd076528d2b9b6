//! Code that goes to the exit of the function, where an instruction or a guard traps.

ghost use Rattle.std.specs.Prelude.{◌+◌, ◌^◌, ◌<◌, ◌≤◌, length, OnOk};
ghost use Rattle.wasm_syntax.specs.Tree.{BrIf, jump};
ghost use Rattle.rewrite_bodies.specs.calls.Slots.{offset_at};
ghost use Rattle.rewrite_bodies.specs.calls.Landings.{most_landings};
ghost use Rattle.rewrite_bodies.specs.calls.Pieces.{const, i32, set};
ghost use Rattle.rewrite_bodies.specs.calls.Rewrite.{to_exit, unwind, unwind_kind};
ghost use Rattle.rewrite_code.specs.calls.Writing.{Emits, EmitsLast};

use crate::CodeWriter;
use crate::context::FunctionContext;
use crate::place::OperandPlaces;
use causes::NoMemory;
use wasm_syntax::Value;

impl<'m, 'a> FunctionContext<'m, 'a> {
    /// The branch to the exit, out of so many open labels, which stand in those of the landings.
    #[tactic(auto, using(crate::proofs::Loads::exit_branch))]
    pub fn to_exit(&self, writer: &mut CodeWriter, labels: u32) -> Result<(), NoMemory>
        requires { labels + most_landings + 1 < 2 ^ 32 }
        ensures { OnOk result (EmitsLast (to_exit self.now labels) writer.old writer.new) }
    {
        let count = self.landing_count();
        writer.branch(labels + count + 1)
    }

    /// The code offset is kept.
    pub fn set_offset(&self, writer: &mut CodeWriter, offset: u32) -> Result<(), NoMemory>
        ensures { OnOk result (Emits (λ k. const (i32 offset)
            (set self.now (offset_at self.now) k)) writer.old writer.new) }
    {
        writer.const_value(Value::I32(offset))?;
        self.set(writer, self.offset_at())
    }

    /// Where the number on the stack is not 0, the code goes to the landing of this number, out of
    /// so many open labels.
    pub fn to_landing(
        &self,
        writer: &mut CodeWriter,
        labels: u32,
        number: u32,
    ) -> Result<(), NoMemory>
        requires { labels + number < 2 ^ 32 }
        ensures { OnOk result (Emits (jump 0 (BrIf (labels + number))) writer.old writer.new) }
    {
        writer.branch_if(labels + number)
    }

    /// The code offset is set, the operands are handed over, and the code goes to the exit.
    #[tactic(auto, using(crate::proofs::Loads::unwound))]
    pub fn unwind(
        &self,
        writer: &mut CodeWriter,
        labels: u32,
        places: &OperandPlaces,
        offset: u32,
    ) -> Result<(), NoMemory>
        requires shallow { labels + most_landings + 1 < 2 ^ 32 }
        requires room { length places.now ≤ self.now.slots }
        ensures { OnOk result (EmitsLast (unwind self.now labels places.now offset) writer.old
            writer.new) }
    {
        self.set_offset(writer, offset)?;
        self.hand(writer, places)?;
        self.to_exit(writer, labels)
    }

    /// The kind on the stack is kept, and the code unwinds.
    #[tactic(auto, using(crate::proofs::Loads::kind_kept))]
    pub fn unwind_kind(
        &self,
        writer: &mut CodeWriter,
        labels: u32,
        places: &OperandPlaces,
        offset: u32,
    ) -> Result<(), NoMemory>
        requires shallow { labels + most_landings + 1 < 2 ^ 32 }
        requires room { length places.now ≤ self.now.slots }
        ensures { OnOk result (EmitsLast (unwind_kind self.now labels places.now offset) writer.old
            writer.new) }
    {
        self.set(writer, self.kind_at())?;
        self.unwind(writer, labels, places, offset)
    }
}

//! One instruction.

ghost use Rattle.std.specs.Prelude.{◌≡◌, List, length, IsTrue};
ghost use Rattle.wasm_syntax.specs.Host.{World};
ghost use Rattle.wasm_syntax.specs.declared.value.Value.{Value as Val};
ghost use Rattle.machine_basics.specs.calls.Performs.{on_operands, laid_out, Holds, Did, UnlessDone, takes_memory};

use crate::answer::Performed;
use crate::shared::Shared;
use crate::{memory, operands, variables};
use pm_text::Stack;
use wasm_syntax::{Basic, ValType, Value};

/// Performs an instruction on the values of a frame, whose locals stand from the place `base` on,
/// with its operands above them. `Trap` and `NoMemory` change nothing. Where the instruction does
/// not fit the operands, nothing is said of them.
#[inline(always)]
pub fn perform(
    instruction: &Basic,
    base: usize,
    values: &mut Stack<Value>,
    shared: &mut Shared,
) -> Performed
    ensures effect { (w : World) (operands locals below : List Val) → Holds shared.old w
        → values.old ≡ laid_out operands locals below → base ≡ length below
        → Did (on_operands instruction.now w locals operands) result below values.new shared.new }
    ensures same { UnlessDone result ((values.new ≡ values.old) × (shared.new ≡ shared.old)) }
    ensures room { result ≡ Performed.NoMemory → IsTrue (takes_memory instruction.now) }
{
    // An arm for each type, so that its compiled code tests and writes values of that type alone.
    match instruction {
        Basic::Nop => Performed::Done,
        Basic::Drop => operands::drop_top(values),
        Basic::Select => operands::select(values),
        Basic::LocalGet(index) => variables::local_get(values, base, *index),
        Basic::LocalSet(index) => variables::local_set(values, base, *index),
        Basic::LocalTee(index) => variables::local_tee(values, base, *index),
        Basic::GlobalGet(index) => variables::global_get(values, shared, *index),
        Basic::GlobalSet(index) => variables::global_set(values, shared, *index),
        Basic::Load(load, _, offset) => memory::load(values, shared, load, *offset),
        Basic::Store(store, _, offset) => memory::store(values, shared, *store, *offset),
        Basic::MemorySize => memory::size(values, shared),
        Basic::MemoryGrow => memory::grow(values, shared),
        Basic::MemoryCopy => memory::copy(values, shared),
        Basic::MemoryFill => memory::fill(values, shared),
        Basic::Const(value) => operands::constant(values, *value),
        Basic::Eqz(ValType::I32) => operands::eqz(values, ValType::I32),
        Basic::Eqz(ValType::I64) => operands::eqz(values, ValType::I64),
        Basic::Unary(t, op) => operands::unary(values, *t, *op),
        Basic::Compare(ValType::I32, op) => operands::compare(values, ValType::I32, *op),
        Basic::Compare(ValType::I64, op) => operands::compare_64(values, *op),
        Basic::Binary(ValType::I32, op) => operands::binary(values, ValType::I32, *op),
        Basic::Binary(ValType::I64, op) => operands::binary_64(values, *op),
        Basic::Convert(conversion) => operands::convert(values, *conversion),
        Basic::Extend32(bits) => operands::extend_32(values, *bits),
        Basic::Extend64(bits) => operands::extend_64(values, *bits),
    }
}

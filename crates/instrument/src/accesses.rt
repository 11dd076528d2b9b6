//! The offsets of accesses (Core 2.4.4), which are numbers of 32 bits by their type.

ghost use Rattle.std.specs.Prelude.{◌<◌, ◌^◌};
ghost use Rattle.std.specs.List.{AllByRecursion};
ghost use Rattle.rewrite_bodies.specs.calls.Offsets.{SmallOffset};
ghost use Rattle.rewrite_modules.specs.Instrumentable.{SmallInstr};
ghost use Rattle.rewrite_promise.specs.calls.Light.{SmallOffsets};

use wasm_syntax::{Basic, Instr, Module, ModuleParts, Op};

/// What the type of a number keeps.
fn is_small(number: u32)
    ensures { number < 2 ^ 32 }
{
    let _ = number;
}

fn basic_is_small(instruction: &Basic)
    ensures { SmallOffset instruction.now }
{
    match *instruction {
        Basic::Load(_, _, offset) => is_small(offset),
        Basic::Store(_, _, offset) => is_small(offset),
        _ => {}
    }
}

fn instr_is_small(code: &Instr)
    ensures { SmallInstr code.now }
{
    match code {
        Instr::Basic(instruction) => basic_is_small(instruction),
        _ => {}
    }
}

fn code_is_small(ops: &[Op])
    ensures { AllByRecursion (λ o. SmallInstr o.code) ops.now }
{
    for op in ops {
        instr_is_small(&op.code);
    }
}

fn parts_are_small(parts: &ModuleParts)
    ensures { SmallOffsets parts.now }
{
    for body in parts.bodies.as_slice() {
        code_is_small(body.ops.as_slice());
    }
}

/// The offset of each access of a module is a number of 32 bits.
pub(crate) fn offsets_are_small(source: &Module)
    ensures { SmallOffsets source.now }
{
    parts_are_small(source.parts())
}

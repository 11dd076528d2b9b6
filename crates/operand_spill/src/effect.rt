//! What a basic instruction takes and gives.

ghost use Rattle.std.specs.Prelude.{◌≡◌, map, option_map, slice_get};
ghost use Rattle.wasm_syntax.specs.Effect.{takes};
ghost use Rattle.wasm_syntax.specs.Numbers.{convert_to};
ghost use Rattle.rewrite_bodies.specs.calls.Slots.{Ctx, Spilled as SpilledOf, Copied as CopiedOf};
ghost use Rattle.rewrite_bodies.specs.calls.Slots.{second_type, result_type};
ghost use Rattle.rewrite_bodies.specs.calls.Slots.{result_place};
ghost use Rattle.rewrite_code.specs.calls.Places.{place};

use rewrite_code::{OperandPlace, OperandPlaces};
use wasm_syntax::{Basic, Convert, ModuleParts, ValType};

/// How many operands an instruction takes.
pub fn takes(instruction: Basic) -> usize
    ensures { result ≡ takes instruction }
{
    match instruction {
        Basic::Nop
        | Basic::LocalGet(_)
        | Basic::GlobalGet(_)
        | Basic::MemorySize
        | Basic::Const(_) => 0,
        Basic::Drop
        | Basic::LocalSet(_)
        | Basic::LocalTee(_)
        | Basic::GlobalSet(_)
        | Basic::Load(_, _, _)
        | Basic::MemoryGrow
        | Basic::Eqz(_)
        | Basic::Unary(_, _)
        | Basic::Convert(_)
        | Basic::Extend32(_)
        | Basic::Extend64(_) => 1,
        Basic::Store(_, _, _) | Basic::Compare(_, _) | Basic::Binary(_, _) => 2,
        Basic::Select | Basic::MemoryCopy | Basic::MemoryFill => 3,
    }
}

fn convert_to(conversion: Convert) -> ValType
    ensures { result ≡ convert_to conversion }
{
    match conversion {
        Convert::Wrap => ValType::I32,
        Convert::ExtendS | Convert::ExtendU => ValType::I64,
    }
}

/// The type of the operand under the topmost.
fn second_type(places: &OperandPlaces) -> Option<ValType>
    ensures { result ≡ second_type places.now }
{
    match places.peek(1) {
        Some(operand) => Some(operand.value_type()),
        None => None,
    }
}

fn local_type(locals: &[ValType], local: u32) -> Option<ValType>
    ensures { result ≡ slice_get locals.now local }
{
    locals.get(local as usize).copied()
}

fn global_type(source: &ModuleParts, global: u32) -> Option<ValType>
    ensures { result ≡ slice_get (map (λ g. g.vtype) source.now.globals) global }
{
    match source.globals.get(global as usize) {
        Some(found) => Some(found.vtype),
        None => None,
    }
}

/// The type of what an instruction gives over these operands, in a function of this module with
/// these locals. An index that is out of range gives nothing.
fn result_type(
    locals: &[ValType],
    source: &ModuleParts,
    places: &OperandPlaces,
    instruction: Basic,
) -> Option<ValType>
    ensures { (C : Ctx) → C.locals ≡ locals.now → C.source ≡ source.now
        → result ≡ result_type C places.now instruction }
{
    match instruction {
        Basic::Nop
        | Basic::Drop
        | Basic::LocalSet(_)
        | Basic::GlobalSet(_)
        | Basic::Store(_, _, _)
        | Basic::MemoryCopy
        | Basic::MemoryFill => None,
        Basic::Select => second_type(places),
        Basic::LocalGet(local) | Basic::LocalTee(local) => local_type(locals, local),
        Basic::GlobalGet(global) => global_type(source, global),
        Basic::Load(load, _, _) => Some(load.value_type()),
        Basic::Const(value) => Some(value.type_of()),
        Basic::Unary(t, _) | Basic::Binary(t, _) => Some(t),
        Basic::Convert(conversion) => Some(convert_to(conversion)),
        Basic::MemorySize
        | Basic::MemoryGrow
        | Basic::Eqz(_)
        | Basic::Compare(_, _)
        | Basic::Extend32(_) => Some(ValType::I32),
        Basic::Extend64(_) => Some(ValType::I64),
    }
}

/// A copy of a local.
fn copy_of(locals: &[ValType], local: u32) -> Option<OperandPlace>
    ensures { option_map place result
        ≡ option_map (λ t. CopiedOf t local) (slice_get locals.now local) }
{
    match local_type(locals, local) {
        Some(t) => Some(OperandPlace::Copied(t, local)),
        None => None,
    }
}

/// A value that is nowhere but in its slot.
fn spilled(gives: Option<ValType>) -> Option<OperandPlace>
    ensures { option_map place result ≡ option_map SpilledOf gives }
{
    match gives {
        Some(t) => Some(OperandPlace::Spilled(t)),
        None => None,
    }
}

/// Where the value is that an instruction gives over these operands.
#[tactic(auto, using(crate::proofs::Performing::placed))]
pub fn result_place(
    locals: &[ValType],
    source: &ModuleParts,
    places: &OperandPlaces,
    instruction: Basic,
) -> Option<OperandPlace>
    ensures { (C : Ctx) → C.locals ≡ locals.now → C.source ≡ source.now
        → option_map place result ≡ result_place C places.now instruction }
{
    match instruction {
        Basic::Const(value) => Some(OperandPlace::Known(value)),
        Basic::LocalGet(local) => copy_of(locals, local),
        Basic::LocalTee(local) => copy_of(locals, local),
        _ => spilled(result_type(locals, source, places, instruction)),
    }
}

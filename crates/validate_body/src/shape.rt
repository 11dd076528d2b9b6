//! What a basic instruction takes and gives.

ghost use Rattle.std.specs.Prelude.{◌≡◌, ◌≤◌, [], ◌∷◌, option_map, slice_get, Some, None, List};
ghost use Rattle.validate_body.specs.inner.Steps.{arrow_of, HasShape, context_of};
ghost use Rattle.wasm_syntax.specs.declared.value.ValType.TheVariants as types;
ghost use Rattle.wasm_syntax.specs.Numbers.{convert_from, convert_to};
ghost use Rattle.wasm_syntax.specs.Typing.{arrow, aligned, if_any, ◌⇒◌};

use crate::locals::Locals;
use wasm_syntax::{Basic, Convert, ModuleParts, ValType};

/// The topmost operand that is taken, those below it, and what is given.
#[derive(Clone, Copy)]
pub struct Shape {
    pub first: Option<ValType>,
    pub second: Option<ValType>,
    pub third: Option<ValType>,
    pub gives: Option<ValType>,
}

fn to_shape(first: Option<ValType>, second: Option<ValType>, gives: Option<ValType>) -> Shape
    ensures { result ≡ record { first = first; second = second; third = None; gives = gives } }
{
    Shape {
        first,
        second,
        third: None,
        gives,
    }
}

/// Whether an alignment is at most a width, which is 8 to 64 bits.
pub fn is_aligned(align: u32, bits: u32) -> bool
    requires { bits ≤ 64 }
    ensures { result ≡ aligned align bits }
{
    if align >= 4 {
        return false;
    }
    (1u32 << align) * 8 <= bits
}

fn converts(k: Convert) -> Shape
    ensures { arrow_of result ≡ (convert_from k ∷ [] ⇒ convert_to k ∷ []) }
{
    match k {
        Convert::Wrap => to_shape(Some(ValType::I64), None, Some(ValType::I32)),
        Convert::ExtendS | Convert::ExtendU => to_shape(
            Some(ValType::I32),
            None,
            Some(ValType::I64),
        ),
    }
}

/// A shape that only a module with a memory has.
fn with_memory(m: &ModuleParts, shape: Shape) -> Option<Shape>
    ensures { option_map (λ s. arrow_of s) result ≡ if_any m.now.memories (Some (arrow_of shape)) }
{
    if m.memories.is_empty() {
        None
    } else {
        Some(shape)
    }
}

/// What an instruction takes and gives, where it has one arrow.
pub fn shape_of(m: &ModuleParts, locals: &Locals, i: Basic) -> Option<Shape>
    ensures { (results : List _) → HasShape i
        → option_map (λ s. arrow_of s) result
        ≡ arrow (context_of m.now locals.now results) types.I32 i }
{
    let i32 = Some(ValType::I32);
    match i {
        Basic::Drop => None,
        Basic::Select => None,
        Basic::Nop => Some(to_shape(None, None, None)),
        Basic::LocalGet(x) => match locals.get(x) {
            Some(t) => Some(to_shape(None, None, Some(t))),
            None => None,
        },
        Basic::LocalSet(x) => match locals.get(x) {
            Some(t) => Some(to_shape(Some(t), None, None)),
            None => None,
        },
        Basic::LocalTee(x) => match locals.get(x) {
            Some(t) => Some(to_shape(Some(t), None, Some(t))),
            None => None,
        },
        Basic::GlobalGet(x) => match m.globals.get(x as usize) {
            Some(g) => Some(to_shape(None, None, Some(g.vtype))),
            None => None,
        },
        Basic::GlobalSet(x) => match m.globals.get(x as usize) {
            Some(g) => if g.mutable {
                Some(to_shape(Some(g.vtype), None, None))
            } else {
                None
            },
            None => None,
        },
        Basic::Load(l, align, _) => {
            if is_aligned(align, l.bits()) {
                with_memory(m, to_shape(i32, None, Some(l.value_type())))
            } else {
                None
            }
        }
        Basic::Store(s, align, _) => {
            if is_aligned(align, s.bits()) {
                with_memory(m, to_shape(Some(s.value_type()), i32, None))
            } else {
                None
            }
        }
        Basic::MemorySize => with_memory(m, to_shape(None, None, i32)),
        Basic::MemoryGrow => with_memory(m, to_shape(i32, None, i32)),
        Basic::MemoryCopy | Basic::MemoryFill => with_memory(
            m,
            Shape {
                first: i32,
                second: i32,
                third: i32,
                gives: None,
            },
        ),
        Basic::Const(v) => Some(to_shape(None, None, Some(v.type_of()))),
        Basic::Eqz(t) => Some(to_shape(Some(t), None, i32)),
        Basic::Unary(t, _) => Some(to_shape(Some(t), None, Some(t))),
        Basic::Compare(t, _) => Some(to_shape(Some(t), Some(t), i32)),
        Basic::Binary(t, _) => Some(to_shape(Some(t), Some(t), Some(t))),
        Basic::Convert(k) => Some(converts(k)),
        Basic::Extend32(_) => Some(to_shape(i32, None, i32)),
        Basic::Extend64(_) => Some(to_shape(Some(ValType::I64), None, Some(ValType::I64))),
    }
}

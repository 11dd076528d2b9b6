//! Numeric instructions without immediates (Core 5.4.5; Core 2.0 for the sign extensions).

ghost use Rattle.std.specs.Prelude.{ℕ, ◌≡◌, ◌<◌, ◌≤◌, slice_get};
ghost use Rattle.wasm_bytes.specs.Reading.{done_item};
ghost use Rattle.wasm_format.specs.Table.{basic, tests_of, operators_of, numeric};
ghost use Rattle.wasm_bytes.specs.Tables.{lookup};
ghost use Rattle.wasm_format.specs.Reading.{numeric_form, item_behind, made_of};

use crate::code::Code;
use int_ops::{Binary, Compare, Narrow32, Narrow64, Unary};
use wasm_syntax::{Basic, Convert, Instr, ValType};

/// The tests of a type in the order of their opcodes: `eqz`, and the comparisons.
fn test(vtype: ValType, place: u8) -> Basic
    requires { place < 11 }
    ensures { slice_get (tests_of vtype) place ≡ Some (basic result) }
{
    match place {
        0 => Basic::Eqz(vtype),
        1 => Basic::Compare(vtype, Compare::Eq),
        2 => Basic::Compare(vtype, Compare::Ne),
        3 => Basic::Compare(vtype, Compare::LtS),
        4 => Basic::Compare(vtype, Compare::LtU),
        5 => Basic::Compare(vtype, Compare::GtS),
        6 => Basic::Compare(vtype, Compare::GtU),
        7 => Basic::Compare(vtype, Compare::LeS),
        8 => Basic::Compare(vtype, Compare::LeU),
        9 => Basic::Compare(vtype, Compare::GeS),
        _ => Basic::Compare(vtype, Compare::GeU),
    }
}

/// The operators of a type in the order of their opcodes: those of one operand, and those of two.
fn operator(vtype: ValType, place: u8) -> Basic
    requires { place < 18 }
    ensures { slice_get (operators_of vtype) place ≡ Some (basic result) }
{
    match place {
        0 => Basic::Unary(vtype, Unary::Clz),
        1 => Basic::Unary(vtype, Unary::Ctz),
        2 => Basic::Unary(vtype, Unary::Popcnt),
        3 => Basic::Binary(vtype, Binary::Add),
        4 => Basic::Binary(vtype, Binary::Sub),
        5 => Basic::Binary(vtype, Binary::Mul),
        6 => Basic::Binary(vtype, Binary::DivS),
        7 => Basic::Binary(vtype, Binary::DivU),
        8 => Basic::Binary(vtype, Binary::RemS),
        9 => Basic::Binary(vtype, Binary::RemU),
        10 => Basic::Binary(vtype, Binary::And),
        11 => Basic::Binary(vtype, Binary::Or),
        12 => Basic::Binary(vtype, Binary::Xor),
        13 => Basic::Binary(vtype, Binary::Shl),
        14 => Basic::Binary(vtype, Binary::ShrS),
        15 => Basic::Binary(vtype, Binary::ShrU),
        16 => Basic::Binary(vtype, Binary::Rotl),
        _ => Basic::Binary(vtype, Binary::Rotr),
    }
}

/// The instruction of an opcode without immediates. None for one that has a float type.
#[tactic(auto, unfolding(crate::specs::Table::numeric))]
fn numeric(opcode: u8) -> Option<Basic>
    requires { (0x45 ≤ opcode) × (opcode ≤ 0xc4) }
    ensures { lookup opcode numeric ≡ Some (numeric_form result) }
{
    match opcode {
        0x45..=0x4f => Some(test(ValType::I32, opcode - 0x45)),
        0x50..=0x5a => Some(test(ValType::I64, opcode - 0x50)),
        0x67..=0x78 => Some(operator(ValType::I32, opcode - 0x67)),
        0x79..=0x8a => Some(operator(ValType::I64, opcode - 0x79)),
        0xa7 => Some(Basic::Convert(Convert::Wrap)),
        0xac => Some(Basic::Convert(Convert::ExtendS)),
        0xad => Some(Basic::Convert(Convert::ExtendU)),
        0xc0 => Some(Basic::Extend32(Narrow32::Eight)),
        0xc1 => Some(Basic::Extend32(Narrow32::Sixteen)),
        0xc2 => Some(Basic::Extend64(Narrow64::Eight)),
        0xc3 => Some(Basic::Extend64(Narrow64::Sixteen)),
        0xc4 => Some(Basic::Extend64(Narrow64::ThirtyTwo)),
        _ => None,
    }
}

/// A numeric instruction without immediates, by its opcode, which stood at that offset.
pub fn read_numeric(opcode: u8, at: usize) -> Code
    requires { (0x45 ≤ opcode) × (opcode ≤ 0xc4) }
    ensures { (base : ℕ) → item_behind base at (lookup opcode numeric)
        ≡ Some (done_item (made_of result)) }
{
    match numeric(opcode) {
        Some(basic) => Code::Known(Instr::Basic(basic)),
        None => Code::Float { at },
    }
}

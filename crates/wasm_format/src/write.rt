//! Writing an instruction.

ghost use Rattle.std.specs.Prelude.{ℕ, ◌≡◌, ◌+◌, ◌≤◌, List, [], ◌∷◌, ◌++◌, length, take, OnOk, OnErr};
ghost use Rattle.std.specs.List.{flat_map};
ghost use Rattle.std.specs.Int.{w32, w64, cast_signed};
ghost use Rattle.wasm_leb.specs.Writing.{unsigned_bytes, signed_bytes};
ghost use Rattle.wasm_format.specs.Encoding.{load_opcode, store_opcode, unary_place, comparison_place, operation_place};
ghost use Rattle.wasm_format.specs.Encoding.{by_type, conversion_opcode, two_numbers, constant_bytes, basic_bytes};
ghost use Rattle.wasm_format.specs.Encoding.{targets_from, labels_bytes, jump_bytes, block_type_byte, encoding};
ghost use Rattle.wasm_format.specs.Encoding.{IsInside, JumpInside, BasicFits, AllWords, IsCode, BeginsAt, spelled_of};
ghost use Rattle.wasm_format.specs.calls.InstructionGrammar.{instruction};

use causes::NoMemory;
use int_ops::{Binary, Compare, Narrow32, Narrow64, Unary};
use wasm_leb::{write_s32, write_s64, write_u32};
use wasm_syntax::{Basic, Convert, Instr, Jump, Labels, Load, Sign, Store, ValType, Value};

// ---- opcodes

fn load_opcode(load: Load) -> u8
    ensures { result ≡ load_opcode load }
{
    match load {
        Load::Full(ValType::I32) => 0x28,
        Load::Full(ValType::I64) => 0x29,
        Load::Part32(Narrow32::Eight, Sign::Signed) => 0x2c,
        Load::Part32(Narrow32::Eight, Sign::Unsigned) => 0x2d,
        Load::Part32(Narrow32::Sixteen, Sign::Signed) => 0x2e,
        Load::Part32(Narrow32::Sixteen, Sign::Unsigned) => 0x2f,
        Load::Part64(Narrow64::Eight, Sign::Signed) => 0x30,
        Load::Part64(Narrow64::Eight, Sign::Unsigned) => 0x31,
        Load::Part64(Narrow64::Sixteen, Sign::Signed) => 0x32,
        Load::Part64(Narrow64::Sixteen, Sign::Unsigned) => 0x33,
        Load::Part64(Narrow64::ThirtyTwo, Sign::Signed) => 0x34,
        Load::Part64(Narrow64::ThirtyTwo, Sign::Unsigned) => 0x35,
    }
}

fn store_opcode(store: Store) -> u8
    ensures { result ≡ store_opcode store }
{
    match store {
        Store::Full(ValType::I32) => 0x36,
        Store::Full(ValType::I64) => 0x37,
        Store::Part32(Narrow32::Eight) => 0x3a,
        Store::Part32(Narrow32::Sixteen) => 0x3b,
        Store::Part64(Narrow64::Eight) => 0x3c,
        Store::Part64(Narrow64::Sixteen) => 0x3d,
        Store::Part64(Narrow64::ThirtyTwo) => 0x3e,
    }
}

/// The place of an operator among the opcodes of its kind.
fn unary_place(op: Unary) -> u8
    ensures is { result ≡ unary_place op }
    ensures small { result ≤ 2 }
{
    match op {
        Unary::Clz => 0,
        Unary::Ctz => 1,
        Unary::Popcnt => 2,
    }
}

/// The place of an operator among the opcodes of its kind.
fn comparison_place(op: Compare) -> u8
    ensures is { result ≡ comparison_place op }
    ensures small { result ≤ 9 }
{
    match op {
        Compare::Eq => 0,
        Compare::Ne => 1,
        Compare::LtS => 2,
        Compare::LtU => 3,
        Compare::GtS => 4,
        Compare::GtU => 5,
        Compare::LeS => 6,
        Compare::LeU => 7,
        Compare::GeS => 8,
        Compare::GeU => 9,
    }
}

/// The place of an operator among the opcodes of its kind.
fn operation_place(op: Binary) -> u8
    ensures is { result ≡ operation_place op }
    ensures small { result ≤ 14 }
{
    match op {
        Binary::Add => 0,
        Binary::Sub => 1,
        Binary::Mul => 2,
        Binary::DivS => 3,
        Binary::DivU => 4,
        Binary::RemS => 5,
        Binary::RemU => 6,
        Binary::And => 7,
        Binary::Or => 8,
        Binary::Xor => 9,
        Binary::Shl => 10,
        Binary::ShrS => 11,
        Binary::ShrU => 12,
        Binary::Rotl => 13,
        Binary::Rotr => 14,
    }
}

fn unary_opcode(vtype: ValType, op: Unary) -> u8
    ensures { result ≡ by_type 0x67 0x79 vtype + unary_place op }
{
    match vtype {
        ValType::I32 => 0x67 + unary_place(op),
        ValType::I64 => 0x79 + unary_place(op),
    }
}

fn comparison_opcode(vtype: ValType, op: Compare) -> u8
    ensures { result ≡ by_type 0x46 0x51 vtype + comparison_place op }
{
    match vtype {
        ValType::I32 => 0x46 + comparison_place(op),
        ValType::I64 => 0x51 + comparison_place(op),
    }
}

fn operation_opcode(vtype: ValType, op: Binary) -> u8
    ensures { result ≡ by_type 0x6a 0x7c vtype + operation_place op }
{
    match vtype {
        ValType::I32 => 0x6a + operation_place(op),
        ValType::I64 => 0x7c + operation_place(op),
    }
}

fn eqz_opcode(vtype: ValType) -> u8
    ensures { result ≡ by_type 0x45 0x50 vtype }
{
    match vtype {
        ValType::I32 => 0x45,
        ValType::I64 => 0x50,
    }
}

fn conversion_opcode(op: Convert) -> u8
    ensures { result ≡ conversion_opcode op }
{
    match op {
        Convert::Wrap => 0xa7,
        Convert::ExtendS => 0xac,
        Convert::ExtendU => 0xad,
    }
}

fn block_type_byte(block_type: Option<ValType>) -> u8
    ensures { result ≡ block_type_byte block_type }
{
    match block_type {
        None => 0x40,
        Some(ValType::I32) => 0x7f,
        Some(ValType::I64) => 0x7e,
    }
}

// ---- an opcode and its immediates

/// Appends bytes. Where memory runs out, here and below, the bytes may have a part of the new ones
/// at their end.
fn push_bytes(out: &mut Vec<u8>, bytes: &[u8]) -> Result<(), NoMemory>
    ensures exact { OnOk result (out.new.items ≡ out.old.items ++ bytes.now) }
    ensures front { take (length out.old.items) out.new.items ≡ out.old.items }
{
    out.extend_from_slice(bytes)?;
    Ok(())
}

/// Appends an opcode, and a number.
fn push_indexed(out: &mut Vec<u8>, opcode: u8, number: u32) -> Result<(), NoMemory>
    ensures exact { OnOk result (out.new.items ≡ out.old.items ++ opcode ∷ unsigned_bytes number) }
    ensures front { take (length out.old.items) out.new.items ≡ out.old.items }
{
    out.push(opcode)?;
    write_u32(out, number)
}

/// Appends an opcode, the exponent of an alignment, and an offset.
fn push_access(out: &mut Vec<u8>, opcode: u8, align: u32, offset: u32) -> Result<(), NoMemory>
    ensures exact { OnOk result (out.new.items
        ≡ out.old.items ++ opcode ∷ two_numbers align offset) }
    ensures front { take (length out.old.items) out.new.items ≡ out.old.items }
{
    push_indexed(out, opcode, align)?;
    write_u32(out, offset)
}

/// Appends a constant.
fn push_constant(out: &mut Vec<u8>, value: Value) -> Result<(), NoMemory>
    ensures exact { OnOk result (out.new.items ≡ out.old.items ++ constant_bytes value) }
    ensures front { take (length out.old.items) out.new.items ≡ out.old.items }
{
    match value {
        Value::I32(number) => {
            out.push(0x41)?;
            write_s32(out, number.cast_signed())
        }
        Value::I64(number) => {
            out.push(0x42)?;
            write_s64(out, number.cast_signed())
        }
    }
}

/// Appends a call through the table.
fn push_indirect(out: &mut Vec<u8>, ftype: u32) -> Result<(), NoMemory>
    ensures exact { OnOk result (out.new.items
        ≡ out.old.items ++ (0x11 ∷ unsigned_bytes ftype ++ 0x00 ∷ [])) }
    ensures front { take (length out.old.items) out.new.items ≡ out.old.items }
{
    push_indexed(out, 0x11, ftype)?;
    push_bytes(out, &[0x00])
}

fn push_numbers(out: &mut Vec<u8>, numbers: &[u32]) -> Result<(), NoMemory>
    ensures exact { OnOk result (out.new.items
        ≡ out.old.items ++ flat_map unsigned_bytes numbers.now) }
    ensures front { take (length out.old.items) out.new.items ≡ out.old.items }
{
    for number in numbers {
        write_u32(out, *number)?;
    }
    Ok(())
}

/// Appends a `br_table` with these targets.
fn push_labels(out: &mut Vec<u8>, count: u32, targets: &[u32], default: u32) -> Result<(), NoMemory>
    ensures exact { OnOk result (out.new.items
        ≡ out.old.items ++ labels_bytes count targets.now default) }
    ensures words { AllWords targets.now }
    ensures front { take (length out.old.items) out.new.items ≡ out.old.items }
{
    push_indexed(out, 0x0e, count)?;
    push_numbers(out, targets)?;
    write_u32(out, default)
}

// ---- instructions

fn push_basic(out: &mut Vec<u8>, basic: Basic) -> Result<(), NoMemory>
    ensures exact { OnOk result (out.new.items ≡ out.old.items ++ basic_bytes basic) }
    ensures fits { BasicFits basic }
    ensures front { take (length out.old.items) out.new.items ≡ out.old.items }
{
    match basic {
        Basic::Nop => push_bytes(out, &[0x01]),
        Basic::Drop => push_bytes(out, &[0x1a]),
        Basic::Select => push_bytes(out, &[0x1b]),
        Basic::LocalGet(index) => push_indexed(out, 0x20, index),
        Basic::LocalSet(index) => push_indexed(out, 0x21, index),
        Basic::LocalTee(index) => push_indexed(out, 0x22, index),
        Basic::GlobalGet(index) => push_indexed(out, 0x23, index),
        Basic::GlobalSet(index) => push_indexed(out, 0x24, index),
        Basic::Load(load, align, offset) => push_access(out, load_opcode(load), align, offset),
        Basic::Store(store, align, offset) => push_access(out, store_opcode(store), align, offset),
        Basic::MemorySize => push_bytes(out, &[0x3f, 0x00]),
        Basic::MemoryGrow => push_bytes(out, &[0x40, 0x00]),
        Basic::MemoryCopy => push_bytes(out, &[0xfc, 0x0a, 0x00, 0x00]),
        Basic::MemoryFill => push_bytes(out, &[0xfc, 0x0b, 0x00]),
        Basic::Const(value) => push_constant(out, value),
        Basic::Eqz(vtype) => push_bytes(out, &[eqz_opcode(vtype)]),
        Basic::Unary(vtype, op) => push_bytes(out, &[unary_opcode(vtype, op)]),
        Basic::Compare(vtype, op) => push_bytes(out, &[comparison_opcode(vtype, op)]),
        Basic::Binary(vtype, op) => push_bytes(out, &[operation_opcode(vtype, op)]),
        Basic::Convert(op) => push_bytes(out, &[conversion_opcode(op)]),
        Basic::Extend32(Narrow32::Eight) => push_bytes(out, &[0xc0]),
        Basic::Extend32(Narrow32::Sixteen) => push_bytes(out, &[0xc1]),
        Basic::Extend64(Narrow64::Eight) => push_bytes(out, &[0xc2]),
        Basic::Extend64(Narrow64::Sixteen) => push_bytes(out, &[0xc3]),
        Basic::Extend64(Narrow64::ThirtyTwo) => push_bytes(out, &[0xc4]),
    }
}

fn push_jump(out: &mut Vec<u8>, jump: Jump, targets: &Labels) -> Result<(), NoMemory>
    requires { JumpInside targets.now jump }
    ensures exact { OnOk result (out.new.items ≡ out.old.items ++ jump_bytes targets.now jump) }
    ensures code { IsCode targets.now (Instr.Jump jump) }
    ensures front { take (length out.old.items) out.new.items ≡ out.old.items }
{
    match jump {
        Jump::Unreachable => push_bytes(out, &[0x00]),
        Jump::Br(label) => push_indexed(out, 0x0c, label),
        Jump::BrIf(label) => push_indexed(out, 0x0d, label),
        Jump::BrTable(first, count, default) => {
            let first = first as usize;
            let targets = &targets.as_slice()[first..first + count as usize];
            push_labels(out, count, targets, default)
        }
        Jump::Return => push_bytes(out, &[0x0f]),
        Jump::Call(function) => push_indexed(out, 0x10, function),
        Jump::CallIndirect(ftype) => push_indirect(out, ftype),
    }
}

#[tactic(auto, unfolding(crate::specs::Encoding::encoding))]
fn push_instr(out: &mut Vec<u8>, code: &Instr, targets: &Labels) -> Result<(), NoMemory>
    requires { IsInside targets.now code.now }
    ensures exact { OnOk result (out.new.items ≡ out.old.items ++ encoding targets.now code.now) }
    ensures code { IsCode targets.now code.now }
    ensures front { take (length out.old.items) out.new.items ≡ out.old.items }
{
    match *code {
        Instr::Basic(basic) => push_basic(out, basic),
        Instr::Jump(jump) => push_jump(out, jump, targets),
        Instr::Block(block_type) => push_bytes(out, &[0x02, block_type_byte(block_type)]),
        Instr::Loop(block_type) => push_bytes(out, &[0x03, block_type_byte(block_type)]),
        Instr::If(block_type) => push_bytes(out, &[0x04, block_type_byte(block_type)]),
        Instr::Else => push_bytes(out, &[0x05]),
        Instr::End => push_bytes(out, &[0x0b]),
    }
}

/// Appends the shortest spelling, or leaves the bytes as they were.
fn append_instr(out: &mut Vec<u8>, code: &Instr, targets: &Labels) -> Result<(), NoMemory>
    requires { IsInside targets.now code.now }
    ensures exact { OnOk result (out.new.items ≡ out.old.items ++ encoding targets.now code.now) }
    ensures code { IsCode targets.now code.now }
    ensures kept { OnErr result (out.new.items ≡ out.old.items) }
{
    let start = out.len();
    let done = push_instr(out, code, targets);
    if done.is_err() {
        out.truncate(start);
    }
    done
}

/// Appends the shortest spelling of an instruction of a body with these targets (Core 5.4), or
/// leaves the bytes as they were.
pub fn write_instr(out: &mut Vec<u8>, code: &Instr, targets: &Labels) -> Result<(), NoMemory>
    requires { IsInside targets.now code.now }
    ensures exact { OnOk result (out.new.items ≡ out.old.items ++ encoding targets.now code.now) }
    ensures code { IsCode targets.now code.now }
    ensures kept { OnErr result (out.new.items ≡ out.old.items) }
    ensures spelled { (base at : ℕ) → BeginsAt base code.now
        → instruction base (spelled_of targets.now code.now) at (encoding targets.now code.now) }
    ensures shortest { (base at : ℕ) (bytes : List ℕ)
        → instruction base (spelled_of targets.now code.now) at bytes
        → length (encoding targets.now code.now) ≤ length bytes }
{
    append_instr(out, code, targets)
}

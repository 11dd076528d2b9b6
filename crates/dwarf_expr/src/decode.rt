//! Reading operators (DWARF 4 section 7.7.1).

ghost use Rattle.std.specs.Prelude.{ℕ, ◌≡◌, ◌<◌, ◌≤◌, ◌-◌, ◌*◌, ◌^◌, OnOk, IfSome, length, option_map};
ghost use Rattle.int_ops.specs.Integers.{narrow64_bits, unsigned as word_of};
ghost use Rattle.wasm_bytes.specs.Place.{Moves, Stays};
ghost use Rattle.wasm_bytes.specs.calls.Answers.{Reads};
ghost use Rattle.dwarf_bytes.specs.Items.{item_or_none};
ghost use Rattle.dwarf_bytes.specs.Format.{read, made, unsigned, signed, number};
ghost use Rattle.dwarf_expr.specs.Operators as table;
ghost use Rattle.dwarf_expr.specs.Operators.{behind};
ghost use Rattle.wasm_bytes.specs.Tables.{lookup};
ghost use Rattle.dwarf_expr.specs.Decode.{begun_at, operators_from};
ghost use Rattle.dwarf_expr.specs.inner.Steps.{ReadsBehind, IfRead, Begins, IfKnown, IsNext, is_end};
ghost use Rattle.dwarf_expr.specs.declared.operators.Operator.TheVariants.{Constant, PlusUconst, Deref, Fbreg, Piece};

use crate::operators::{Begun, Operator, PlacedOperator, Space};
use dwarf_bytes::number;
use int_ops::{Binary, Compare, Narrow64, i64_narrow};
use wasm_bytes::{Malformed, Reader};

// ---- operands

/// A constant of so many bytes.
#[tactic(auto, unfolding(dwarf_bytes::specs::Format::read))]
fn constant_u(reader: &mut Reader<'_>, width: usize) -> Result<Operator, Malformed>
    requires { width ≤ 8 }
    ensures item { Reads result reader.new (read (table.constant_u width) reader.old) }
    ensures stays { OnOk result (Stays reader.old reader.new) }
{
    let word = number(reader, width)?;
    Ok(Operator::Constant(word))
}

/// A signed constant of so many bytes, which are these bits.
#[tactic(auto, unfolding(dwarf_bytes::specs::Format::read))]
fn constant_s(reader: &mut Reader<'_>, width: usize, bits: Narrow64) -> Result<Operator, Malformed>
    requires bits { 8 * width ≡ narrow64_bits bits }
    requires short { width ≤ 8 }
    ensures item { Reads result reader.new (read (table.constant_s width) reader.old) }
    ensures stays { OnOk result (Stays reader.old reader.new) }
{
    let word = number(reader, width)?;
    Ok(Operator::Constant(i64_narrow(bits, word)))
}

/// A signed constant of eight bytes, which are all bits of an entry.
#[tactic(auto, using(crate::proofs::Numbers::all_bits), unfolding(dwarf_bytes::specs::Format::read))]
fn constant_8s(reader: &mut Reader<'_>) -> Result<Operator, Malformed>
    ensures item { Reads result reader.new (read (table.constant_s 8) reader.old) }
    ensures stays { OnOk result (Stays reader.old reader.new) }
{
    let word = number(reader, 8)?;
    Ok(Operator::Constant(word))
}

#[tactic(auto, unfolding(dwarf_bytes::specs::Format::read))]
fn unsigned_constant(reader: &mut Reader<'_>) -> Result<Operator, Malformed>
    ensures item { Reads result reader.new (read (unsigned (λ n. made (Constant n))) reader.old) }
    ensures stays { OnOk result (Stays reader.old reader.new) }
{
    let word = reader.u64()?;
    Ok(Operator::Constant(word))
}

#[tactic(auto, unfolding(dwarf_bytes::specs::Format::read))]
fn signed_constant(reader: &mut Reader<'_>) -> Result<Operator, Malformed>
    ensures item { Reads result reader.new
        (read (signed (λ z. made (Constant (word_of 64 z)))) reader.old) }
    ensures stays { OnOk result (Stays reader.old reader.new) }
{
    let number = reader.s64()?;
    Ok(Operator::Constant(number.cast_unsigned()))
}

#[tactic(auto, unfolding(dwarf_bytes::specs::Format::read))]
fn plus_uconst(reader: &mut Reader<'_>) -> Result<Operator, Malformed>
    ensures item { Reads result reader.new (read (unsigned (λ n. made (PlusUconst n))) reader.old) }
    ensures stays { OnOk result (Stays reader.old reader.new) }
{
    let word = reader.u64()?;
    Ok(Operator::PlusUconst(word))
}

#[tactic(auto, unfolding(dwarf_bytes::specs::Format::read))]
fn fbreg(reader: &mut Reader<'_>) -> Result<Operator, Malformed>
    ensures item { Reads result reader.new (read (signed (λ z. made (Fbreg z))) reader.old) }
    ensures stays { OnOk result (Stays reader.old reader.new) }
{
    let offset = reader.s64()?;
    Ok(Operator::Fbreg(offset))
}

#[tactic(auto, unfolding(dwarf_bytes::specs::Format::read))]
fn piece(reader: &mut Reader<'_>) -> Result<Operator, Malformed>
    ensures item { Reads result reader.new (read (unsigned (λ n. made (Piece n))) reader.old) }
    ensures stays { OnOk result (Stays reader.old reader.new) }
{
    let size = reader.u64()?;
    Ok(Operator::Piece(size))
}

#[tactic(auto, unfolding(dwarf_bytes::specs::Format::read))]
fn deref_size(reader: &mut Reader<'_>) -> Result<Operator, Malformed>
    ensures item { Reads result reader.new (read (number 1 (λ n. made (Deref n))) reader.old) }
    ensures stays { OnOk result (Stays reader.old reader.new) }
{
    let bytes = number(reader, 1)?;
    Ok(Operator::Deref(bytes))
}

/// An index in LEB128.
#[tactic(auto, unfolding(dwarf_bytes::specs::Format::read))]
fn indexed(reader: &mut Reader<'_>, space: Space) -> Result<Operator, Malformed>
    ensures item { Reads result reader.new (read (table.indexed space) reader.old) }
    ensures stays { OnOk result (Stays reader.old reader.new) }
{
    let index = reader.u64()?;
    Ok(Operator::Location(space, index))
}

/// A global with an index of four bytes.
#[tactic(auto, unfolding(dwarf_bytes::specs::Format::read))]
fn wide_global(reader: &mut Reader<'_>) -> Result<Operator, Malformed>
    ensures item { Reads result reader.new (read table.wide_global reader.old) }
    ensures stays { OnOk result (Stays reader.old reader.new) }
{
    let index = number(reader, 4)?;
    Ok(Operator::Location(Space::Global, index))
}

/// A WebAssembly location of that kind.
#[tactic(auto, unfolding(dwarf_bytes::specs::Format::read))]
fn location_behind(reader: &mut Reader<'_>, kind: u64) -> Result<Operator, Malformed>
    ensures item { Reads result reader.new (read (table.location_behind kind) reader.old) }
    ensures stays { OnOk result (Stays reader.old reader.new) }
{
    match kind {
        0 => indexed(reader, Space::Local),
        1 => indexed(reader, Space::Global),
        2 => indexed(reader, Space::Operand),
        3 => wide_global(reader),
        _ => Err(Malformed { at: reader.at() }),
    }
}

#[tactic(auto, unfolding(dwarf_bytes::specs::Format::read))]
fn location(reader: &mut Reader<'_>) -> Result<Operator, Malformed>
    ensures item { Reads result reader.new (read (number 1 table.location_behind) reader.old) }
    ensures stays { OnOk result (Stays reader.old reader.new) }
{
    let kind = number(reader, 1)?;
    location_behind(reader, kind)
}

// ---- the table

#[tactic(auto, unfolding(dwarf_bytes::specs::Format::read))]
fn constants(opcode: u8, reader: &mut Reader<'_>) -> Option<Result<Operator, Malformed>>
    ensures reads { ReadsBehind result reader.new (lookup opcode table.constants) reader.old }
    ensures stays { IfRead result (Stays reader.old reader.new) }
{
    match opcode {
        0x03 => Some(constant_u(reader, 4)),
        0x06 => Some(Ok(Operator::Deref(4))),
        0x08 => Some(constant_u(reader, 1)),
        0x09 => Some(constant_s(reader, 1, Narrow64::Eight)),
        0x0a => Some(constant_u(reader, 2)),
        0x0b => Some(constant_s(reader, 2, Narrow64::Sixteen)),
        0x0c => Some(constant_u(reader, 4)),
        0x0d => Some(constant_s(reader, 4, Narrow64::ThirtyTwo)),
        0x0e => Some(constant_u(reader, 8)),
        0x0f => Some(constant_8s(reader)),
        0x10 => Some(unsigned_constant(reader)),
        0x11 => Some(signed_constant(reader)),
        0x12 => Some(Ok(Operator::Dup)),
        0x13 => Some(Ok(Operator::Drop)),
        0x14 => Some(Ok(Operator::Over)),
        0x16 => Some(Ok(Operator::Swap)),
        _ => None,
    }
}

#[tactic(auto, unfolding(dwarf_bytes::specs::Format::read))]
fn operations(opcode: u8, reader: &mut Reader<'_>) -> Option<Result<Operator, Malformed>>
    ensures reads { ReadsBehind result reader.new (lookup opcode table.operations) reader.old }
    ensures stays { IfRead result (Stays reader.old reader.new) }
{
    let operator = match opcode {
        0x1a => Operator::Arithmetic(Binary::And),
        0x1b => Operator::Arithmetic(Binary::DivS),
        0x1c => Operator::Arithmetic(Binary::Sub),
        0x1d => Operator::Arithmetic(Binary::RemU),
        0x1e => Operator::Arithmetic(Binary::Mul),
        0x1f => Operator::Neg,
        0x20 => Operator::Not,
        0x21 => Operator::Arithmetic(Binary::Or),
        0x22 => Operator::Arithmetic(Binary::Add),
        0x23 => return Some(plus_uconst(reader)),
        0x24 => Operator::Arithmetic(Binary::Shl),
        0x25 => Operator::Arithmetic(Binary::ShrU),
        0x26 => Operator::Arithmetic(Binary::ShrS),
        0x27 => Operator::Arithmetic(Binary::Xor),
        0x29 => Operator::Comparison(Compare::Eq),
        0x2a => Operator::Comparison(Compare::GeS),
        0x2b => Operator::Comparison(Compare::GtS),
        0x2c => Operator::Comparison(Compare::LeS),
        0x2d => Operator::Comparison(Compare::LtS),
        0x2e => Operator::Comparison(Compare::Ne),
        _ => return None,
    };
    Some(Ok(operator))
}

#[tactic(auto, unfolding(dwarf_bytes::specs::Format::read))]
fn locations(opcode: u8, reader: &mut Reader<'_>) -> Option<Result<Operator, Malformed>>
    ensures reads { ReadsBehind result reader.new (lookup opcode table.locations) reader.old }
    ensures stays { IfRead result (Stays reader.old reader.new) }
{
    match opcode {
        0x91 => Some(fbreg(reader)),
        0x93 => Some(piece(reader)),
        0x94 => Some(deref_size(reader)),
        0x96 => Some(Ok(Operator::Nop)),
        0x9f => Some(Ok(Operator::StackValue)),
        0xed => Some(location(reader)),
        _ => None,
    }
}

/// An operator of that opcode, behind it. None where the opcode is that of no operator.
#[tactic(auto, unfolding(crate::specs::Operators::behind, dwarf_bytes::specs::Format::read))]
fn operator(opcode: u8, reader: &mut Reader<'_>) -> Option<Result<Operator, Malformed>>
    ensures reads { ReadsBehind result reader.new (behind opcode) reader.old }
    ensures stays { IfRead result (Stays reader.old reader.new) }
{
    match opcode {
        0x30..=0x4f => Some(Ok(Operator::Constant(u64::from(opcode - 0x30)))),
        0x00..=0x19 => constants(opcode, reader),
        0x1a..=0x2f => operations(opcode, reader),
        _ => locations(opcode, reader),
    }
}

/// An operator of that opcode, behind it.
pub fn read_operator(opcode: u8, reader: &mut Reader<'_>) -> Result<Operator, Malformed>
    ensures item { Reads result reader.new
        (item_or_none (option_map read (behind opcode)) reader.old) }
    ensures stays { OnOk result (Stays reader.old reader.new) }
{
    match operator(opcode, reader) {
        Some(result) => result,
        None => Err(Malformed { at: reader.at() }),
    }
}

/// What an opcode begins.
fn begun(opcode: u8, reader: &mut Reader<'_>) -> Begun
    ensures begins { Begins result reader.new (begun_at reader.old (behind opcode)) }
    ensures stays { IfKnown result (Stays reader.old reader.new) }
{
    match operator(opcode, reader) {
        Some(Ok(operator)) => Begun::Known(operator),
        Some(Err(_)) => Begun::Cut,
        None => Begun::Foreign,
    }
}

/// The next operator, unless the expression ends. Behind one that is not known the reader stands
/// anywhere.
pub(crate) fn next_operator(reader: &mut Reader<'_>) -> Option<PlacedOperator>
    requires short { length reader.old.block < 2 ^ 32 }
    ensures next { IsNext result reader.new reader.old }
    ensures inside { IfSome result (λ x. reader.old.at < length reader.old.block) }
    ensures moves { IfSome result (λ x. IfKnown x.begun (Moves reader.old reader.new)) }
{
    let at = reader.at() as u32;
    let Ok(opcode) = reader.byte() else {
        return None;
    };
    Some(PlacedOperator {
        at,
        opcode,
        begun: begun(opcode, reader),
    })
}

/// The expression ends there, or a piece stands there.
pub(crate) fn ends_part(reader: &Reader<'_>) -> bool
    ensures { (n : ℕ) → length reader.now.block - reader.now.at ≤ n
        → result ≡ is_end (operators_from n reader.now) }
{
    match reader.fork().byte() {
        Ok(opcode) => opcode == 0x93,
        Err(_) => true,
    }
}

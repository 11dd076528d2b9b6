//! Loads and stores of a memory, by what they move (Core 2.4.4, 4.4.4).

ghost use Rattle.std.specs.Prelude.{◌≡◌, ◌<◌, ◌^◌, ◌/◌, ◌+◌, ◌%◌, option_map};
ghost use Rattle.linear_memory.specs.Memory.{load as load_of, store as store_of, copy as copy_of, fill as fill_of};
ghost use Rattle.wasm_syntax.specs.Access.{load_type, load_bits, loaded, store_type, store_bits, widen};
ghost use Rattle.wasm_syntax.specs.Effect.{address as address_of};
ghost use Rattle.wasm_syntax.specs.Numbers.{number, value as value_of};
ghost use Rattle.int_ops.specs.Integers.{narrow32_bits, narrow64_bits};
ghost use Rattle.machine_basics.specs.inner.Parts.{Writes};

use crate::answer::{Performed, TrapKind};
use int_ops::{Narrow32, Narrow64, i32_narrow, i64_narrow};
use linear_memory::{Memory, StoreFault};
use wasm_syntax::{Load, Sign, Store, ValType, Value};

/// The effective address: the sum of an i32, read without sign, and an offset, which does not wrap.
#[inline(always)]
pub(crate) fn address(a: u32, offset: u32) -> u64
    ensures { result ≡ address_of a offset }
{
    u64::from(a) + u64::from(offset)
}

// ---- loads

/// The lowest bits of an i32, as what they are in all its bits.
#[inline(always)]
fn widen_32(bits: Narrow32, sign: Sign, n: u32) -> u32
    requires { n < 2 ^ narrow32_bits bits }
    ensures { result ≡ widen sign (narrow32_bits bits) 32 n }
{
    match sign {
        Sign::Signed => i32_narrow(bits, n),
        Sign::Unsigned => n,
    }
}

/// The lowest bits of an i64, as what they are in all its bits.
#[inline(always)]
fn widen_64(bits: Narrow64, sign: Sign, n: u64) -> u64
    requires { n < 2 ^ narrow64_bits bits }
    ensures { result ≡ widen sign (narrow64_bits bits) 64 n }
{
    match sign {
        Sign::Signed => i64_narrow(bits, n),
        Sign::Unsigned => n,
    }
}

/// The value that comes of the bytes read.
#[inline(always)]
fn loaded_value(load: Load, n: u64) -> Value
    requires { n < 2 ^ load_bits load }
    ensures { result ≡ value_of (load_type load) (loaded load n) }
{
    match load {
        Load::Full(ValType::I32) => Value::I32(n as u32),
        Load::Full(ValType::I64) => Value::I64(n),
        Load::Part32(bits, sign) => Value::I32(widen_32(bits, sign, n as u32)),
        Load::Part64(bits, sign) => Value::I64(widen_64(bits, sign, n)),
    }
}

/// The value that a load finds at an address, or None past the end.
#[inline(always)]
pub(crate) fn load_at(memory: &Memory, load: Load, at: u64) -> Option<Value>
    ensures { result ≡ option_map (λ n. value_of (load_type load) (loaded load n))
        (load_of memory.now.memory at (load_bits load / 8)) }
{
    match memory.load(at, load.bytes()) {
        Some(n) => Some(loaded_value(load, n)),
        None => None,
    }
}

// ---- stores

/// The number of a value of the type that a store writes, or None where it is of the other type.
#[inline(always)]
pub(crate) fn stored_number(store: Store, v: Value) -> Option<u64>
    ensures { result ≡ number (store_type store) v }
{
    match (store, v) {
        (Store::Full(ValType::I32), Value::I32(n)) => Some(u64::from(n)),
        (Store::Part32(_), Value::I32(n)) => Some(u64::from(n)),
        (Store::Full(ValType::I64), Value::I64(n)) => Some(n),
        (Store::Part64(_), Value::I64(n)) => Some(n),
        _ => None,
    }
}

/// Writes the lowest bytes of a number at an address.
#[inline(always)]
pub(crate) fn store_at(memory: &mut Memory, store: Store, at: u64, n: u64) -> Performed
    ensures { Writes (store_of memory.old.memory at (store_bits store / 8) n) result memory.old
        memory.new }
{
    match memory.store(at, store.bytes(), n) {
        Ok(()) => Performed::Done,
        Err(StoreFault::Out) => Performed::Trap(TrapKind::OutOfBounds),
        Err(StoreFault::NoMemory) => Performed::NoMemory,
    }
}

/// `memory.copy` (Core 2.0, 4.4.7).
pub(crate) fn copy_at(memory: &mut Memory, to: u32, from: u32, len: u32) -> Performed
    ensures { Writes (copy_of memory.old.memory to from len) result memory.old memory.new }
{
    match memory.copy(u64::from(to), u64::from(from), u64::from(len)) {
        Ok(()) => Performed::Done,
        Err(StoreFault::Out) => Performed::Trap(TrapKind::OutOfBounds),
        Err(StoreFault::NoMemory) => Performed::NoMemory,
    }
}

/// `memory.fill` (Core 2.0, 4.4.7) with the lowest byte of a number.
pub(crate) fn fill_at(memory: &mut Memory, to: u32, n: u32, len: u32) -> Performed
    ensures { Writes (fill_of memory.old.memory to (n % 256) len) result memory.old memory.new }
{
    match memory.fill(u64::from(to), (n % 0x100) as u8, u64::from(len)) {
        Ok(()) => Performed::Done,
        Err(StoreFault::Out) => Performed::Trap(TrapKind::OutOfBounds),
        Err(StoreFault::NoMemory) => Performed::NoMemory,
    }
}

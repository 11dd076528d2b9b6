//! Memory instructions (Core 4.4.4; `memory.copy` and `memory.fill` of Core 2.0, 4.4.7).

ghost use Rattle.std.specs.Prelude.{◌≡◌, ℕ, List, drop};
ghost use Rattle.wasm_syntax.specs.Host.{World};
ghost use Rattle.wasm_syntax.specs.declared.value.Value.{Value as Val};
ghost use Rattle.wasm_syntax.specs.declared.instruction.Basic.TheVariants as basics;
ghost use Rattle.machine_basics.specs.calls.Performs.{on_operands, Holds, UnlessDone};
ghost use Rattle.machine_basics.specs.inner.Parts.{Acts, Changes, Grows, three_numbers};

use crate::access::{address, copy_at, fill_at, load_at, store_at, stored_number};
use crate::answer::{Performed, TrapKind};
use crate::operands::push;
use crate::shared::Shared;
use int_ops::{Narrow32, Narrow64};
use linear_memory::{GrowAnswer, Memory};
use pm_text::Stack;
use wasm_syntax::{Load, Store, ValType, Value};

/// A load of a kind that is known where this is called, so that nothing is tested for it.
#[inline(always)]
fn load_of(values: &mut Stack<Value>, shared: &Shared, load: Load, offset: u32) -> Performed
    ensures effect { (w : World) (ls : List Val) (align : ℕ) → Holds shared.now w
        → Acts (on_operands (basics.Load load align offset) w ls values.old) result w ls
        values.new }
    ensures room { result ≡ Performed.NoMemory → ⊥ }
    ensures same { UnlessDone result (values.new ≡ values.old) }
{
    match (values.peek(0), &shared.memory) {
        (Some(Value::I32(a)), Some(memory)) => {
            match load_at(memory, load, address(a, offset)) {
                Some(v) => {
                    values.set_top(v);
                    Performed::Done
                }
                None => Performed::Trap(TrapKind::OutOfBounds),
            }
        }
        _ => Performed::Done,
    }
}

#[inline(never)]
pub(crate) fn load(
    values: &mut Stack<Value>,
    shared: &Shared,
    load: &Load,
    offset: u32,
) -> Performed
    ensures effect { (w : World) (ls : List Val) (align : ℕ) → Holds shared.now w
        → Acts (on_operands (basics.Load load.now align offset) w ls values.old) result w ls
        values.new }
    ensures room { result ≡ Performed.NoMemory → ⊥ }
    ensures same { UnlessDone result (values.new ≡ values.old) }
{
    match *load {
        Load::Full(ValType::I32) => load_of(values, shared, Load::Full(ValType::I32), offset),
        Load::Full(ValType::I64) => load_of(values, shared, Load::Full(ValType::I64), offset),
        Load::Part32(Narrow32::Eight, sign) => load_of(
            values,
            shared,
            Load::Part32(Narrow32::Eight, sign),
            offset,
        ),
        Load::Part32(Narrow32::Sixteen, sign) => load_of(
            values,
            shared,
            Load::Part32(Narrow32::Sixteen, sign),
            offset,
        ),
        Load::Part64(Narrow64::Eight, sign) => load_of(
            values,
            shared,
            Load::Part64(Narrow64::Eight, sign),
            offset,
        ),
        Load::Part64(Narrow64::Sixteen, sign) => load_of(
            values,
            shared,
            Load::Part64(Narrow64::Sixteen, sign),
            offset,
        ),
        Load::Part64(Narrow64::ThirtyTwo, sign) => load_of(
            values,
            shared,
            Load::Part64(Narrow64::ThirtyTwo, sign),
            offset,
        ),
    }
}

/// Takes the operands away where an instruction is done.
#[inline(always)]
fn taken(values: &mut Stack<Value>, count: usize, answer: Performed) -> Performed
    ensures answer { result ≡ answer }
    ensures done { answer ≡ Performed.Done → values.new ≡ drop count values.old }
    ensures same { UnlessDone answer (values.new ≡ values.old) }
{
    match answer {
        Performed::Done => {
            values.discard(count);
            Performed::Done
        }
        other => other,
    }
}

/// A store of a kind that is known where this is called.
#[inline(always)]
fn store_of(values: &mut Stack<Value>, shared: &mut Shared, store: Store, offset: u32) -> Performed
    ensures effect { (w : World) (ls : List Val) (align : ℕ) → Holds shared.old w
        → Changes (on_operands (basics.Store store align offset) w ls values.old) result ls
        values.new shared.new }
    ensures same { UnlessDone result ((values.new ≡ values.old) × (shared.new ≡ shared.old)) }
{
    match (values.peek(1), values.peek(0)) {
        (Some(Value::I32(a)), Some(v)) => match stored_number(store, v) {
            Some(n) => match &mut shared.memory {
                Some(memory) => taken(values, 2, store_at(memory, store, address(a, offset), n)),
                None => Performed::Done,
            },
            None => Performed::Done,
        },
        _ => Performed::Done,
    }
}

#[inline(never)]
pub(crate) fn store(
    values: &mut Stack<Value>,
    shared: &mut Shared,
    store: Store,
    offset: u32,
) -> Performed
    ensures effect { (w : World) (ls : List Val) (align : ℕ) → Holds shared.old w
        → Changes (on_operands (basics.Store store align offset) w ls values.old) result ls
        values.new shared.new }
    ensures same { UnlessDone result ((values.new ≡ values.old) × (shared.new ≡ shared.old)) }
{
    match store {
        Store::Full(ValType::I32) => store_of(values, shared, Store::Full(ValType::I32), offset),
        Store::Full(ValType::I64) => store_of(values, shared, Store::Full(ValType::I64), offset),
        Store::Part32(Narrow32::Eight) => store_of(
            values,
            shared,
            Store::Part32(Narrow32::Eight),
            offset,
        ),
        Store::Part32(Narrow32::Sixteen) => store_of(
            values,
            shared,
            Store::Part32(Narrow32::Sixteen),
            offset,
        ),
        Store::Part64(Narrow64::Eight) => store_of(
            values,
            shared,
            Store::Part64(Narrow64::Eight),
            offset,
        ),
        Store::Part64(Narrow64::Sixteen) => store_of(
            values,
            shared,
            Store::Part64(Narrow64::Sixteen),
            offset,
        ),
        Store::Part64(Narrow64::ThirtyTwo) => store_of(
            values,
            shared,
            Store::Part64(Narrow64::ThirtyTwo),
            offset,
        ),
    }
}

#[inline(always)]
pub(crate) fn size(values: &mut Stack<Value>, shared: &Shared) -> Performed
    ensures effect { (w : World) (ls : List Val) → Holds shared.now w
        → Acts (on_operands basics.MemorySize w ls values.old) result w ls values.new }
    ensures same { UnlessDone result (values.new ≡ values.old) }
{
    match &shared.memory {
        Some(memory) => push(values, Value::I32(memory.size())),
        None => Performed::Done,
    }
}

/// The size before in pages, or -1 where there would be too many pages, as an i32. None where
/// memory ran out.
fn grow_by(memory: &mut Memory, count: u32) -> Option<u32>
    ensures { Grows result memory.old memory.new count }
{
    match memory.grow(count) {
        GrowAnswer::Grown(before) => Some(before),
        GrowAnswer::TooMany => Some(u32::MAX),
        GrowAnswer::NoMemory => None,
    }
}

pub(crate) fn grow(values: &mut Stack<Value>, shared: &mut Shared) -> Performed
    ensures effect { (w : World) (ls : List Val) → Holds shared.old w
        → Changes (on_operands basics.MemoryGrow w ls values.old) result ls values.new shared.new }
    ensures same { UnlessDone result ((values.new ≡ values.old) × (shared.new ≡ shared.old)) }
{
    match values.peek(0) {
        Some(Value::I32(count)) => match &mut shared.memory {
            Some(memory) => match grow_by(memory, count) {
                Some(answer) => {
                    values.set_top(Value::I32(answer));
                    Performed::Done
                }
                None => Performed::NoMemory,
            },
            None => Performed::Done,
        },
        _ => Performed::Done,
    }
}

/// The three topmost operands, the topmost first, or None where they are no i32s.
fn top_three(values: &Stack<Value>) -> Option<(u32, u32, u32)>
    ensures { result ≡ three_numbers values.now }
{
    match (values.peek(0), values.peek(1), values.peek(2)) {
        (Some(Value::I32(a)), Some(Value::I32(b)), Some(Value::I32(c))) => Some((a, b, c)),
        _ => None,
    }
}

pub(crate) fn copy(values: &mut Stack<Value>, shared: &mut Shared) -> Performed
    ensures effect { (w : World) (ls : List Val) → Holds shared.old w
        → Changes (on_operands basics.MemoryCopy w ls values.old) result ls values.new shared.new }
    ensures same { UnlessDone result ((values.new ≡ values.old) × (shared.new ≡ shared.old)) }
{
    match top_three(values) {
        Some((len, from, to)) => match &mut shared.memory {
            Some(memory) => taken(values, 3, copy_at(memory, to, from, len)),
            None => Performed::Done,
        },
        None => Performed::Done,
    }
}

pub(crate) fn fill(values: &mut Stack<Value>, shared: &mut Shared) -> Performed
    ensures effect { (w : World) (ls : List Val) → Holds shared.old w
        → Changes (on_operands basics.MemoryFill w ls values.old) result ls values.new shared.new }
    ensures same { UnlessDone result ((values.new ≡ values.old) × (shared.new ≡ shared.old)) }
{
    match top_three(values) {
        Some((len, n, to)) => match &mut shared.memory {
            Some(memory) => taken(values, 3, fill_at(memory, to, n, len)),
            None => Performed::Done,
        },
        None => Performed::Done,
    }
}

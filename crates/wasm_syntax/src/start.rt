//! The start of an instance (Core 4.5.4), as far as it takes no memory: the values of constant
//! expressions, and functions in a table.

ghost use Rattle.std.specs.Prelude.{◌≡◌, ◌+◌, ◌≤◌, [], length, map, slice_get, Some};
ghost use Rattle.wasm_syntax.specs.Module.{const_value};
ghost use Rattle.wasm_syntax.specs.Run.{data_at, element_at, element_fits, i32_or_zero};
ghost use Rattle.wasm_syntax.specs.Run.{initial_globals, over, table_min};
ghost use Rattle.wasm_syntax.specs.calls.Starting.{initial_value};

use crate::instruction::{Basic, Instr, Op};
use crate::module::ModuleParts;
use crate::parts::{Body, DataSeg, ElementSeg, Global};
use crate::value::Value;

/// The value of an expression that reads no global.
fn literal(ops: &[Op]) -> Option<Value>
    ensures { result ≡ const_value [] ops.now }
{
    match ops {
        [] => None,
        [op, ..] => match op.code {
            Instr::Basic(Basic::Const(v)) => Some(v),
            _ => None,
        },
    }
}

/// The first value of a global, by its index.
fn initial_at(globals: &[Global], index: u32) -> Option<Value>
    ensures { result ≡ slice_get (initial_globals globals.now) index }
{
    match globals.get(index as usize) {
        Some(global) => Some(global.initial_value()),
        None => None,
    }
}

/// The value of an expression that may read the globals, where they have their first values.
fn constant(globals: &[Global], ops: &[Op]) -> Option<Value>
    ensures { result ≡ const_value (initial_globals globals.now) ops.now }
{
    match ops {
        [] => None,
        [op, ..] => match op.code {
            Instr::Basic(Basic::Const(v)) => Some(v),
            Instr::Basic(Basic::GlobalGet(x)) => initial_at(globals, x),
            _ => None,
        },
    }
}

fn i32_or_zero(value: Option<Value>) -> u32
    ensures { result ≡ i32_or_zero value }
{
    match value {
        Some(Value::I32(n)) => n,
        Some(Value::I64(_)) => 0,
        None => 0,
    }
}

/// Where a segment begins: the value of its offset.
fn offset(globals: &[Global], body: &Body) -> u32
    ensures { result ≡ i32_or_zero (const_value (initial_globals globals.now) body.now.ops) }
{
    i32_or_zero(constant(globals, body.ops.as_slice()))
}

impl Global {
    /// The value of a global's expression, where it reads no global (Core 3.3.7.2).
    pub fn literal(&self) -> Option<Value>
        ensures { result ≡ const_value [] self.now.init.ops }
    {
        literal(self.init.ops.as_slice())
    }

    /// The value that a global has first.
    pub fn initial_value(&self) -> Value
        ensures { result ≡ initial_value self.now }
    {
        match self.literal() {
            Some(v) => v,
            None => self.vtype.zero(),
        }
    }
}

impl ModuleParts {
    /// Where the functions of an element segment begin in the table.
    pub fn element_at(&self, element: &ElementSeg) -> u32
        ensures { result ≡ element_at self.now element.now }
    {
        offset(self.globals.as_slice(), &element.offset)
    }

    /// Where the bytes of a data segment begin in the memory.
    pub fn data_at(&self, segment: &DataSeg) -> u32
        ensures { result ≡ data_at self.now segment.now }
    {
        offset(self.globals.as_slice(), &segment.offset)
    }

    /// How many elements the table has at the start; 0 where there is none.
    pub fn table_min(&self) -> u32
        ensures { result ≡ table_min self.now.tables }
    {
        match self.tables.as_slice() {
            [] => 0,
            [limits, ..] => limits.min,
        }
    }

    /// Whether an element segment lies inside of the table.
    pub fn element_fits(&self, element: &ElementSeg) -> bool
        ensures { result ≡ element_fits self.now element.now }
    {
        let at = u64::from(self.element_at(element));
        let size = u64::from(self.table_min());
        at <= size && element.functions.len() as u64 <= size - at
    }
}

/// Puts functions into a table, from a place on.
pub fn put_functions(table: &mut [Option<u32>], at: usize, functions: &[u32])
    requires { at + length functions.now ≤ length table.old }
    ensures { table.new ≡ over table.old at (map Some functions.now) }
{
    let mut next = at;
    for function in functions {
        table[next] = Some(*function);
        next += 1;
    }
}

//! The landings of a function: places behind its body at which its frame is handed over, one for each
//! list of operands, kind of trap, and part of the body.

ghost use Rattle.std.specs.Prelude.{◌≡◌, ◌+◌, ◌*◌, ◌^◌, ◌<◌, ◌≤◌, [], List, map, length, IfSome, OnOk};
ghost use Rattle.wasm_syntax.specs.Machine.{same_result};
ghost use Rattle.wasm_syntax.specs.Numbers.{same_type};
ghost use Rattle.rewrite_bodies.specs.calls.Slots.{Landing as LandingOf, Copied as CopiedOf, less};
ghost use Rattle.rewrite_bodies.specs.calls.Landings.{same_value, same_place, same_places};
ghost use Rattle.rewrite_bodies.specs.calls.Landings.{same_landing, number_of, part_of, division_kind};
ghost use Rattle.rewrite_bodies.specs.calls.Landings.{one_kind, carrying, landing_of};
ghost use Rattle.rewrite_bodies.specs.calls.Landings.{landing_behind, number_in, most_landings};
ghost use Rattle.rewrite_bodies.specs.calls.Landings.{with_landing, with_some};
ghost use Rattle.rewrite_code.specs.calls.Places.{place, from_top};
ghost use Rattle.rewrite_code.specs.calls.KeptLandings.{landing, made_landing};

use crate::context::FunctionContext;
use crate::place::{OperandPlace, OperandPlaces};
use causes::NoMemory;
use std::alloc::Global;
use std::marker::Model;
use wasm_syntax::{Basic, Binary, ValType, Value};

/// The most landings of a function: with them, no body whose blocks a rewriting takes passes the
/// decoder's limit of nesting.
const MOST: usize = 20;

/// The fewest locals of a function whose body has parts.
const MANY_LOCALS: usize = 1024;

/// The last part of a body.
const LAST_PART: usize = 15;

/// The types of the topmost operand, where it comes with the branch, the places of the others, the
/// kind of the trap, and the part of the body that the branch comes from.
#[derive(Drop)]
pub struct Landing {
    pub carried: Option<ValType>,
    pub places: OperandPlaces,
    pub kind: u32,
    pub part: u32,
}

/// The part of a body that an offset is in, where the function has these locals, with its
/// parameters. Each part takes as many bytes as there are locals, and the last one the rest.
pub fn part_of(locals: &[ValType], offset: u32) -> u32
    ensures { result ≡ part_of locals.now offset }
{
    if locals.len() < MANY_LOCALS {
        return 0;
    }
    let part = offset as usize / locals.len();
    LAST_PART.min(part) as u32
}

fn same_result(a: Option<ValType>, b: Option<ValType>) -> bool
    ensures { result ≡ same_result a b }
{
    match a {
        Some(t) => match b {
            Some(u) => t.is_same(u),
            None => false,
        },
        None => match b {
            Some(_) => false,
            None => true,
        },
    }
}

fn same_value(a: Value, b: Value) -> bool
    ensures { result ≡ same_value a b }
{
    match a {
        Value::I32(n) => match b {
            Value::I32(m) => n == m,
            Value::I64(_) => false,
        },
        Value::I64(n) => match b {
            Value::I32(_) => false,
            Value::I64(m) => n == m,
        },
    }
}

fn same_copy(t: ValType, x: u32, b: OperandPlace) -> bool
    ensures { result ≡ same_place (CopiedOf t x) (place b) }
{
    match b {
        OperandPlace::Copied(u, y) => t.is_same(u) && x == y,
        OperandPlace::Spilled(_) | OperandPlace::Known(_) => false,
    }
}

fn same_place(a: OperandPlace, b: OperandPlace) -> bool
    ensures { result ≡ same_place (place a) (place b) }
{
    match a {
        OperandPlace::Spilled(t) => match b {
            OperandPlace::Spilled(u) => t.is_same(u),
            OperandPlace::Known(_) | OperandPlace::Copied(_, _) => false,
        },
        OperandPlace::Known(v) => match b {
            OperandPlace::Known(w) => same_value(v, w),
            OperandPlace::Spilled(_) | OperandPlace::Copied(_, _) => false,
        },
        OperandPlace::Copied(t, x) => same_copy(t, x, b),
    }
}

/// The same of all, which are as many.
fn same_places(a: &[OperandPlace], b: &[OperandPlace]) -> bool
    ensures { result ≡ same_places (from_top a.now) (from_top b.now) }
{
    if a.len() != b.len() {
        return false;
    }
    let mut left = a.len();
    while left > 0 {
        left -= 1;
        if !same_place(a[left], b[left]) {
            return false;
        }
    }
    true
}

/// Whether a landing is for these operands, with the topmost last, this kind, and this part.
fn is_for(
    found: &Landing,
    carried: Option<ValType>,
    operands: &[OperandPlace],
    kind: u32,
    part: u32,
) -> bool
    ensures { result
        ≡ same_landing (made_landing carried operands.now kind part) (landing found.now) }
{
    same_result(carried, found.carried)
        && kind == found.kind
        && part == found.part
        && same_places(operands, found.places.as_slice())
}

/// The number of the first landing for these.
fn number_of(
    landings: &[Landing],
    carried: Option<ValType>,
    operands: &[OperandPlace],
    kind: u32,
    part: u32,
) -> Option<u32>
    requires { length landings.now ≤ most_landings }
    ensures few { IfSome result (λ number. number < most_landings) }
    ensures number { result ≡ number_of (made_landing carried operands.now kind part)
        (map landing landings.now) }
{
    for number in 0..landings.len() {
        if is_for(&landings[number], carried, operands, kind, part) {
            return Some(number as u32);
        }
    }
    None
}

fn division_kind(operator: Binary) -> Option<u32>
    ensures { result ≡ division_kind operator }
{
    match operator {
        Binary::DivU | Binary::RemS | Binary::RemU => Some(2),
        _ => None,
    }
}

/// The kind of an instruction that traps with no other one.
fn one_kind(instruction: &Basic) -> Option<u32>
    ensures { result ≡ one_kind instruction.now }
{
    match *instruction {
        Basic::Binary(_, operator) => division_kind(operator),
        Basic::Load(..) | Basic::Store(..) | Basic::MemoryCopy | Basic::MemoryFill => Some(4),
        _ => None,
    }
}

/// The landings of a function, which contracts see as a list, in the order in which they were
/// noted.
#[derive(Drop)]
pub struct Landings {
    alloc: Global,
    items: Vec<Landing>,
}

impl Model for Landings {
    ghost use Rattle.std.specs.Prelude.{List, map, length, ◌≤◌};
    ghost use Rattle.rewrite_bodies.specs.calls.Slots.{Landing as LandingOf};
    ghost use Rattle.rewrite_bodies.specs.calls.Landings.{most_landings};
    ghost use Rattle.rewrite_code.specs.calls.KeptLandings.{landing};

    ghost Value = { List LandingOf };

    ghost view = { λ s. map landing s.items.items };

    ghost invariant = { λ s. length s.items.items ≤ most_landings };
}

impl Landings {
    /// None, which takes no memory.
    pub fn new(alloc: Global) -> Self
        ensures { result ≡ [] }
    {
        Landings {
            alloc,
            items: Vec::new(alloc),
        }
    }

    /// The landings, the first one first.
    pub fn as_slice(&self) -> &[Landing]
        ensures list { map landing result.now ≡ self.now }
        ensures few { length result.now ≤ most_landings }
    {
        self.items.as_slice()
    }

    /// How many there are.
    pub fn count(&self) -> u32
        ensures count { result ≡ length self.now }
        ensures few { result ≤ most_landings }
    {
        self.items.len() as u32
    }

    /// One more for these operands, this kind, and this part, where there is none yet, and room.
    fn note(
        &mut self,
        carried: Option<ValType>,
        operands: &[OperandPlace],
        kind: u32,
        part: u32,
    ) -> Result<(), NoMemory>
        ensures { OnOk result (self.new
            ≡ with_landing (made_landing carried operands.now kind part) self.old) }
    {
        if number_of(self.items.as_slice(), carried, operands, kind, part).is_some() {
            return Ok(());
        }
        if self.items.len() < MOST {
            let places = OperandPlaces::of(self.alloc, operands)?;
            self.items.push(Landing {
                carried,
                places,
                kind,
                part,
            })?;
        }
        Ok(())
    }

    /// The landing of an instruction in this part on these operands, if it has one.
    pub fn note_guard(
        &mut self,
        part: u32,
        instruction: &Basic,
        places: &OperandPlaces,
    ) -> Result<(), NoMemory>
        ensures { OnOk result (self.new ≡ with_some (landing_of part instruction.now places.now)
            self.old) }
    {
        let Some(kind) = one_kind(instruction) else {
            return Ok(());
        };
        let Some(top) = places.peek(0) else {
            return Ok(());
        };
        let operands = places.as_slice();
        self.note(
            Some(top.value_type()),
            &operands[..operands.len() - 1],
            kind,
            part,
        )
    }

    /// The landing behind a call in this part that takes so many of these operands.
    pub fn note_call(
        &mut self,
        part: u32,
        places: &OperandPlaces,
        taken: usize,
    ) -> Result<(), NoMemory>
        ensures { OnOk result (self.new
            ≡ with_landing (landing_behind part (less taken places.now)) self.old) }
    {
        let operands = places.as_slice();
        let left = operands.len().saturating_sub(taken);
        self.note(None, &operands[..left], 0, part)
    }
}

impl<'m, 'a> FunctionContext<'m, 'a> {
    /// The number of the landing of an instruction at an offset on these operands.
    pub fn landing_of(
        &self,
        offset: u32,
        instruction: &Basic,
        places: &OperandPlaces,
    ) -> Option<u32>
        ensures number { result ≡ number_in self.now.landings
            (landing_of (part_of self.now.locals offset) instruction.now places.now) }
        ensures few { IfSome result (λ number. number < most_landings) }
    {
        let Some(kind) = one_kind(instruction) else {
            return None;
        };
        let Some(top) = places.peek(0) else {
            return None;
        };
        let operands = places.as_slice();
        number_of(
            self.landings(),
            Some(top.value_type()),
            &operands[..operands.len() - 1],
            kind,
            part_of(self.locals(), offset),
        )
    }

    /// The number of the landing behind a call at an offset that took so many of these operands.
    pub fn landing_behind(&self, offset: u32, places: &OperandPlaces, taken: usize) -> Option<u32>
        ensures number { result ≡ number_of
            (landing_behind (part_of self.now.locals offset) (less taken places.now))
            self.now.landings }
        ensures few { IfSome result (λ number. number < most_landings) }
    {
        let operands = places.as_slice();
        let left = operands.len().saturating_sub(taken);
        number_of(
            self.landings(),
            None,
            &operands[..left],
            0,
            part_of(self.locals(), offset),
        )
    }
}

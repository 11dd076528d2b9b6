//! The locals that are added to a function.

ghost use Rattle.std.specs.Prelude.{◌≡◌, ◌+◌, ◌*◌, ◌<◌, ℕ, slice_get, Some, IfOk};
ghost use Rattle.wasm_syntax.specs.declared.parts.Body.{Body as BodyOf};
ghost use Rattle.wasm_syntax.specs.declared.parts.FuncType.{FuncType as TypeOf};
ghost use Rattle.wasm_syntax.specs.Tree.{Tree};
ghost use Rattle.wasm_syntax.specs.Module.{Program, IsProgram, defined, function_at, type_at};
ghost use Rattle.wasm_syntax.specs.Valid.{body_of};
ghost use Rattle.operand_spill.specs.calls.Before.{before, constant_of, known_among};
ghost use Rattle.rewrite_bodies.specs.calls.Slots.{ctx_of};
ghost use Rattle.rewrite_code.specs.calls.Places.{place};
ghost use Rattle.operand_spill.specs.calls.Plans.{Fits, IsDefined, IsPlan, own_types, number, Slot, Result, Kind};
ghost use Rattle.operand_spill.specs.calls.Plans.{Offset, Length};

use crate::heights::greatest_height;
use crate::locals::local_types;
use crate::places::places_before;
use causes::NoMemory;
use pm_text::Items;
use rewrite_code::{OperandPlace, OperandPlaces, slot};
use std::alloc::Global;
use std::marker::Model;
use wasm_syntax::{Body, ModuleParts, ValType, Value};
use wasm_validate::Validated;

/// The types of a function's locals with its parameters, and how many heights have slots.
#[derive(Drop)]
pub struct SlotPlan {
    locals: Items<ValType>,
    slots: u32,
}

impl Model for SlotPlan {
    ghost use Rattle.operand_spill.specs.calls.Plans.{Planned, planned, Fits};

    ghost Value = { Planned };

    ghost view = { λ s. planned s.locals s.slots };

    ghost invariant = { λ s. Fits (planned s.locals s.slots) };
}

/// The body of a function that the module defines.
#[tactic(auto, using(crate::proofs::Greatest::body_read))]
pub fn body_at(parts: &ModuleParts, func: u32) -> &Body
    requires { IsDefined parts.now func }
    ensures { body_of parts.now func ≡ Some result.now }
{
    &parts.bodies.as_slice()[func as usize - parts.imports.len()]
}

/// The types of the locals of a function with this body.
fn own_types(
    alloc: Global,
    parts: &ModuleParts,
    func: u32,
    body: &Body,
) -> Result<Items<ValType>, NoMemory>
    ensures { IfOk result (λ types. types ≡ own_types (type_at parts.now func) body.now) }
{
    match parts.type_of(func as usize) {
        Some(ftype) => local_types(alloc, ftype.params.as_slice(), body.groups.as_slice()),
        None => Ok(Items::new(alloc)),
    }
}

/// The plan of a function that the module defines.
pub fn plan(alloc: Global, source: &Validated, func: u32) -> Result<SlotPlan, NoMemory>
    requires { IsDefined source.now func }
    ensures { (p : Program) (body : BodyOf) (tree : Tree) (ftype : TypeOf) → IsProgram p
        → p.module_ ≡ source.now → function_at p func ≡ Some (defined body tree ftype)
        → IfOk result (λ plan. IsPlan p func body tree ftype plan) }
{
    let parts = source.module().parts();
    let body = body_at(parts, func);
    let slots = greatest_height(source, func, body.ops.len() as u32);
    let locals = own_types(alloc, parts, func, body)?;
    Ok(SlotPlan { locals, slots })
}

/// The value of an operand that is known.
fn known_value(operand: OperandPlace) -> Option<Value>
    ensures { result ≡ constant_of (Some (place operand)) }
{
    match operand {
        OperandPlace::Known(value) => Some(value),
        OperandPlace::Spilled(_) | OperandPlace::Copied(_, _) => None,
    }
}

fn place_at(operands: &[OperandPlace], index: usize) -> Option<OperandPlace>
    ensures { result ≡ slice_get operands.now index }
{
    operands.get(index).copied()
}

/// The constant that is known of an operand, by the number of operands below it.
#[tactic(auto, using(crate::proofs::Knowing::known_read))]
fn constant_at(places: &OperandPlaces, from_bottom: usize) -> Option<Value>
    ensures { result ≡ known_among (Some places.now) from_bottom }
{
    match place_at(places.as_slice(), from_bottom) {
        Some(operand) => known_value(operand),
        None => None,
    }
}

impl SlotPlan {
    /// The types of the function's own locals, the parameters first.
    pub fn types(&self) -> &[ValType]
        ensures types { result.now ≡ self.now.locals }
        ensures few { Fits self.now }
    {
        // The field is named so that the invariant is known, by which all locals have numbers.
        let _ = &self.slots;
        self.locals.as_slice()
    }

    /// How many heights have slots: the greatest number of operands at once.
    pub fn heights(&self) -> u32
        ensures { result ≡ self.now.slots }
    {
        self.slots
    }

    /// The local that keeps an operand of a type at a height, which is the number of operands below
    /// it.
    pub fn slot(&self, vtype: ValType, height: u32) -> u32
        requires { height < self.now.slots }
        ensures { result ≡ number self.now (Slot vtype height) }
    {
        self.locals.len() as u32 + slot(self.slots, vtype, height)
    }

    /// The local through which results of a type go.
    pub fn result(&self, vtype: ValType) -> u32
        ensures { result ≡ number self.now (Result vtype) }
    {
        self.locals.len() as u32 + slot(self.slots, vtype, self.slots)
    }

    /// The local for the kind of a trap.
    pub fn kind(&self) -> u32
        ensures { result ≡ number self.now Kind }
    {
        self.locals.len() as u32 + self.slots + 1
    }

    /// The local for the code offset of a trap.
    pub fn offset(&self) -> u32
        ensures { result ≡ number self.now Offset }
    {
        self.locals.len() as u32 + self.slots + 2
    }

    /// The local for the length of the memory.
    pub fn length(&self) -> u32
        ensures { result ≡ number self.now Length }
    {
        self.locals.len() as u32 + 2 * self.slots + 4
    }

    /// The value of an operand before a live instruction of the planned function, by the number of
    /// operands below it, where a constant instruction pushed it and it was not taken since. Dead
    /// code has none. It walks over the body up to there.
    pub fn known(
        &self,
        alloc: Global,
        source: &Validated,
        func: u32,
        op: u32,
        from_bottom: u32,
    ) -> Result<Option<Value>, NoMemory>
        requires { IsDefined source.now func }
        ensures { (p : Program) (body : BodyOf) (tree : Tree) (ftype : TypeOf) → IsProgram p
            → p.module_ ≡ source.now → function_at p func ≡ Some (defined body tree ftype)
            → IsPlan p func body tree ftype self.now → IfOk result (λ value. value
            ≡ known_among (before (ctx_of p func body ftype 0) tree.nodes op) from_bottom) }
    {
        let parts = source.module().parts();
        let body = body_at(parts, func);
        let ops = body.ops.as_slice();
        let locals = self.locals.as_slice();
        let found = places_before(alloc, locals, parts, ops, op as usize)?;
        match found {
            Some(places) => Ok(constant_at(&places, from_bottom as usize)),
            None => Ok(None),
        }
    }

    /// How many locals are added: a slot of each type for each height, two for results, one for a
    /// kind, one for an offset and one for the length of the memory.
    pub fn locals(&self) -> u32
        ensures { result ≡ 2 * self.now.slots + 5 }
    {
        2 * self.slots + 5
    }
}

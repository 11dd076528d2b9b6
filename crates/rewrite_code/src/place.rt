//! Where operands are.

ghost use Rattle.std.specs.Prelude.{◌≡◌, ◌+◌, ◌*◌, ◌^◌, ◌<◌, ◌≤◌, [], ◌∷◌, length, map, slice_get};
ghost use Rattle.std.specs.Prelude.{option_map, OnOk, OnErr};
ghost use Rattle.std.specs.Prelude.{IfOk, MatchOption};
ghost use Rattle.rewrite_bodies.specs.calls.Slots.{place_type, slot, less, grown, uncopied, without};
ghost use Rattle.rewrite_code.specs.calls.Places.{place, from_top, these};

use causes::NoMemory;
use std::alloc::Global;
use std::marker::Model;
use wasm_syntax::{ValType, Value};

/// Where the value of an operand is besides: in the slot of its type and height, in a constant, or
/// in a local of its type.
#[derive(Clone, Copy, PartialEq, Eq)]
pub enum OperandPlace {
    Spilled(ValType),
    Known(Value),
    Copied(ValType, u32),
}

/// The place of a slot among the locals that are added for so many heights. A height is the number
/// of operands below.
pub fn slot(slots: u32, t: ValType, height: u32) -> u32
    requires within { height ≤ slots }
    requires few { 2 * slots + 3 < 2 ^ 32 }
    ensures numbered { result ≡ slot slots t height }
    ensures low { result ≤ 2 * slots + 3 }
{
    match t {
        ValType::I32 => height,
        ValType::I64 => slots + 3 + height,
    }
}

impl OperandPlace {
    /// The type of the operand.
    pub fn value_type(self) -> ValType
        ensures { result ≡ place_type (place self) }
    {
        match self {
            OperandPlace::Spilled(t) => t,
            OperandPlace::Known(value) => value.type_of(),
            OperandPlace::Copied(t, _) => t,
        }
    }
}

/// Whether a local is this one, or any where there is none.
pub(crate) fn is_meant(meant: Option<u32>, local: u32) -> bool
    ensures { result ≡ these meant local }
{
    match meant {
        Some(meant) => meant == local,
        None => true,
    }
}

/// The place of an operand that is not to be a copy of this local, or of any.
fn uncopied(operand: OperandPlace, meant: Option<u32>) -> OperandPlace
    ensures { place result ≡ uncopied (these meant) (place operand) }
{
    match operand {
        OperandPlace::Copied(t, local) => {
            if is_meant(meant, local) {
                OperandPlace::Spilled(t)
            } else {
                operand
            }
        }
        OperandPlace::Spilled(_) | OperandPlace::Known(_) => operand,
    }
}

/// The same of each.
fn uncopy_all(operands: &mut [OperandPlace], meant: Option<u32>)
    ensures { map place operands.new ≡ map (uncopied (these meant)) (map place operands.old) }
{
    for operand in operands.iter_mut() {
        *operand = uncopied(*operand, meant);
    }
}

/// The places of the operands at a point of a function, which contracts see as a list with the
/// topmost first.
#[derive(Drop)]
pub struct OperandPlaces {
    items: Vec<OperandPlace>,
}

impl Model for OperandPlaces {
    ghost use Rattle.std.specs.Prelude.{List};
    ghost use Rattle.rewrite_bodies.specs.calls.Slots.{Place};
    ghost use Rattle.rewrite_code.specs.calls.Places.{from_top};

    ghost Value = { List Place };

    ghost view = { λ s. from_top s.items.items };
}

impl OperandPlaces {
    /// No operand, which takes no memory.
    pub fn new(alloc: Global) -> Self
        ensures { result ≡ [] }
    {
        OperandPlaces {
            items: Vec::new(alloc),
        }
    }

    /// These operands, the lowest first.
    pub(crate) fn of(alloc: Global, operands: &[OperandPlace]) -> Result<Self, NoMemory>
        ensures { IfOk result (λ places. places ≡ from_top operands.now) }
    {
        let items = Vec::from_slice(alloc, operands)?;
        Ok(OperandPlaces { items })
    }

    /// The number of operands.
    pub fn len(&self) -> usize
        ensures { result ≡ length self.now }
    {
        self.items.len()
    }

    /// The places, the lowest first.
    pub fn as_slice(&self) -> &[OperandPlace]
        ensures value { from_top result.now ≡ self.now }
        ensures count { length result.now ≡ length self.now }
    {
        self.items.as_slice()
    }

    /// The operand under `depth` others, or None where there are not so many.
    pub fn peek(&self, depth: usize) -> Option<OperandPlace>
        ensures { option_map place result ≡ slice_get self.now depth }
    {
        let count = self.items.len();
        if depth < count {
            self.items.get(count - 1 - depth).copied()
        } else {
            None
        }
    }

    /// An operand more.
    pub fn push(&mut self, added: OperandPlace) -> Result<(), NoMemory>
        ensures pushed { OnOk result (self.new ≡ place added ∷ self.old) }
        ensures same { OnErr result (self.new ≡ self.old) }
    {
        self.items.push(added)?;
        Ok(())
    }

    /// A result of an instruction or of a block, if it has one.
    pub fn grow(&mut self, gives: Option<ValType>) -> Result<(), NoMemory>
        ensures grown { OnOk result (self.new ≡ grown gives self.old) }
        ensures same { OnErr result (self.new ≡ self.old) }
    {
        match gives {
            Some(t) => self.push(OperandPlace::Spilled(t)),
            None => Ok(()),
        }
    }

    /// No operand is a copy of this local any more, or of any: those that are go to their slots.
    pub fn uncopy(&mut self, meant: Option<u32>)
        ensures { self.new ≡ without (these meant) self.old }
    {
        uncopy_all(self.items.as_mut_slice(), meant);
    }

    /// Takes the topmost operand, if there is one.
    pub fn pop(&mut self) -> Option<OperandPlace>
        ensures { MatchOption result ((self.old ≡ []) × (self.new ≡ []))
            (λ p. self.old ≡ place p ∷ self.new) }
    {
        self.items.pop()
    }

    /// Takes the topmost operands, or all where there are not so many.
    pub fn discard(&mut self, count: usize)
        ensures { self.new ≡ less count self.old }
    {
        let kept = self.items.len().saturating_sub(count);
        self.items.truncate(kept);
    }
}

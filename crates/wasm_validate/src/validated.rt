//! Modules that were validated.

ghost use Rattle.std.specs.Prelude.{◌≡◌, ◌<◌, ℕ, List, length, slice_get, Option, Some, None, Err};
ghost use Rattle.std.specs.Prelude.{IfOk, IfErr, OnOk};
ghost use Rattle.wasm_syntax.specs.Module.{option_then};
ghost use Rattle.validate_body.specs.declared.marks.Mark.{Mark as MarkThere};
ghost use Rattle.wasm_syntax.specs.Valid.{Valid};
ghost use Rattle.wasm_validate.specs.calls.Answers.{Answered, Checked};
ghost use Rattle.wasm_validate.specs.Heights.{HasOp, HeightIs, AllLow};
ghost use Rattle.wasm_validate.specs.calls.Instructions.{HeightsAre, OpIs};
ghost use Rattle.wasm_syntax.specs.Sizes.{WithinLimits};
ghost use Rattle.wasm_validate.specs.calls.Operands.{HasOperand, OperandIs, StaticAt, RowsUpTo, LastOf};
ghost use Rattle.wasm_syntax.specs.declared.value.ValType.{ValType as Sort};
ghost use Rattle.wasm_validate.specs.calls.Whole.{MarkedUpTo};
ghost use Rattle.wasm_validate.specs.declared.validated.ValidateFault.TheVariants as faults;

use crate::bodies::{BodiesFault, check_bodies};
use crate::limit::{first_high, heights_of_all};
use crate::offsets::op_at;
use crate::places::bad_part;
use crate::rows::{Rows, last_top, rows_of_all};
use causes::NoMemory;
use pm_text::Items;
use std::alloc::Global;
use std::marker::Model;
use validate_body::{Mark, Marks};
use wasm_syntax::{Heights, Module, Place, Quantity, ValType};

/// Why a module is refused: at the first place that is not valid; or since a function has too many
/// operands at once, with the greatest number of the first such function; or for want of memory.
#[derive(Clone, Copy)]
pub enum ValidateFault {
    Invalid { place: Place },
    Limit { what: Quantity, count: u64 },
    NoMemory,
}

impl From<NoMemory> for ValidateFault {
    ghost from_gives = { λ _ e. e ≡ faults.NoMemory };

    fn from(_error: NoMemory) -> Self {
        ValidateFault::NoMemory
    }
}

/// A valid module within the limits, which contracts see as its parts, with what is known before
/// each instruction.
#[derive(Drop)]
pub struct Validated {
    module: Module,
    marks: Items<Marks>,
    heights: Heights,
    rows: Items<Rows>,
}

impl Model for Validated {
    ghost use Rattle.wasm_syntax.specs.declared.module.ModuleParts.{ModuleParts as Parts};
    ghost use Rattle.wasm_validate.specs.calls.Answers.{Checked as IsChecked};

    ghost Value = { Parts };

    ghost view = { λ v. v.module };

    ghost invariant = { λ v. IsChecked v.module v.marks v.heights v.rows };
}

/// What is known before each instruction.
#[derive(Drop)]
struct Known {
    marks: Items<Marks>,
    heights: Heights,
    rows: Items<Rows>,
}

/// Whether a module is valid, with at most 4,096 operands at once in each function.
pub fn validate(alloc: Global, module_: Module) -> Result<Validated, ValidateFault>
    requires { WithinLimits module_ }
    ensures { Answered result module_ }
{
    match judge(alloc, &module_) {
        Ok(known) => Ok(Validated {
            module: module_,
            marks: known.marks,
            heights: known.heights,
            rows: known.rows,
        }),
        Err(fault) => {
            drop(module_);
            Err(fault)
        }
    }
}

/// What is known of a module, or why it is refused.
fn judge(alloc: Global, m: &Module) -> Result<Known, ValidateFault>
    requires { WithinLimits m.now }
    ensures known { IfOk result (λ k. Checked m.now k.marks k.heights k.rows) }
    ensures valid { OnOk result (Valid m.now) }
    ensures low { OnOk result (AllLow m.now) }
    ensures refused { IfErr result (λ e. Answered (Err e) m.now) }
{
    let found = bad_part(alloc, m.parts())?;
    match found {
        Some(place) => return Err(ValidateFault::Invalid { place }),
        None => {}
    }
    match check_bodies(alloc, m.parts()) {
        Ok(marks) => marked(alloc, m, marks),
        Err(BodiesFault::At(place)) => Err(ValidateFault::Invalid { place }),
        Err(BodiesFault::NoMemory) => Err(ValidateFault::NoMemory),
    }
}

/// What is known of a valid module with these marks, where no function has too many operands.
fn marked(alloc: Global, _m: &Module, marks: Items<Marks>) -> Result<Known, ValidateFault>
    requires limits { WithinLimits _m.now }
    requires valid { Valid _m.now }
    requires marked { MarkedUpTo marks _m.now (length _m.now.bodies) }
    ensures known { IfOk result (λ k. Checked _m.now k.marks k.heights k.rows) }
    ensures valid { OnOk result (Valid _m.now) }
    ensures low { OnOk result (AllLow _m.now) }
    ensures refused { IfErr result (λ e. Answered (Err e) _m.now) }
{
    match first_high(marks.as_slice()) {
        Some(count) => Err(ValidateFault::Limit {
            what: Quantity::Height,
            count: count as u64,
        }),
        None => {
            let heights = heights_of_all(alloc, marks.as_slice())?;
            let rows = rows_of_all(alloc, marks.as_slice())?;
            Ok(Known {
                marks,
                heights,
                rows,
            })
        }
    }
}

/// The mark of an instruction of a function, where it is there.
fn mark_at(all: &Items<Marks>, i: usize, op: usize) -> Option<Mark>
    ensures { (k : Option MarkThere)
        → option_then (slice_get all.now i) (λ marks. slice_get marks op) ≡ Some k → result ≡ k }
{
    match all.get(i) {
        Some(marks) => match marks.get(op).copied() {
            Some(mark) => mark,
            None => None,
        },
        None => None,
    }
}

/// The topmost type before the last instruction of a function up to one that has a height.
fn top_at(
    all: &Items<Marks>,
    every: &Items<Rows>,
    i: usize,
    op: u32,
    height: usize,
) -> Option<ValType>
    requires rows { RowsUpTo every.now all.now (length all.now) }
    ensures { (marks : List (Option MarkThere)) (last : ℕ) (mark : MarkThere)
        → slice_get all.now i ≡ Some marks → op < length marks → LastOf marks op height last mark
        → result ≡ mark.top }
{
    match (all.get(i), every.get(i)) {
        (Some(marks), Some(rows)) => {
            if (op as usize) < marks.len() {
                last_top(marks.as_slice(), rows, op, height)
            } else {
                None
            }
        }
        _ => None,
    }
}

impl Validated {
    /// The module.
    pub fn module(&self) -> &Module
        ensures value { result.now ≡ self.now }
        ensures valid { Valid self.now }
        ensures limits { WithinLimits self.now }
        ensures heights { AllLow self.now }
    {
        &self.module
    }

    /// The operand height before each instruction, or 0 in dead code.
    pub fn heights(&self) -> &Heights
        ensures { HeightsAre result.now self.now }
    {
        &self.heights
    }

    /// The operand height before an instruction of a function that the module defines, or None in
    /// dead code. The `else` or `end` behind a sequence with an unconditional transfer is dead.
    pub fn height(&self, func: u32, op: u32) -> Option<u32>
        requires { HasOp self.now func op }
        ensures { HeightIs result self.now func op }
    {
        let i = func as usize - self.module.parts().imports.len();
        match mark_at(&self.marks, i, op as usize) {
            Some(mark) => Some(mark.height as u32),
            None => None,
        }
    }

    /// The type of an operand before an instruction of a function that the module defines, by its
    /// place from the bottom, over all open blocks. The place is below the height, so the
    /// instruction is in live code.
    pub fn operand(&self, func: u32, op: u32, from_bottom: u32) -> ValType
        requires there { HasOp self.now func op }
        requires below { HasOperand self.now func op from_bottom }
        ensures typed { OperandIs result self.now func op from_bottom }
        ensures fixed { (types : List Sort) → StaticAt self.now func op types
            → slice_get types from_bottom ≡ Some result }
    {
        let i = func as usize - self.module.parts().imports.len();
        let height = from_bottom as usize + 1;
        match top_at(&self.marks, &self.rows, i, op, height) {
            Some(t) => t,
            None => unreachable!(),
        }
    }

    /// The number of the instruction of a function at a code offset, or None where no instruction
    /// other than `else` and `end` begins there, or the module does not define such a function.
    pub fn op_at(&self, func: u32, at: u32) -> Option<u32>
        ensures { OpIs result self.now func at }
    {
        op_at(self.module.parts(), func, at)
    }
}

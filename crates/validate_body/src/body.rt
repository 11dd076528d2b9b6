//! The bodies of functions.

ghost use Rattle.std.specs.Prelude.{◌≡◌, ◌≤◌, ◌<◌, ◌^◌, ◌++◌, length, slice_get, MatchResult, IfOk, OnOk, Some, []};
ghost use Rattle.validate_body.specs.calls.Algorithm.{start};
ghost use Rattle.validate_body.specs.calls.Bodies.{Judged, HasTree};
ghost use Rattle.validate_body.specs.calls.Marks.{Marked};
ghost use Rattle.validate_body.specs.declared.body.BodyFault.TheVariants as faults;
ghost use Rattle.wasm_syntax.specs.Module.{declared_locals};

use crate::locals::Locals;
use crate::marks::{Marks, mark_of};
use crate::step::step;
use crate::{StackFault, TypeStack};
use causes::NoMemory;
use pm_text::Items;
use std::alloc::Global;
use wasm_syntax::{BlockKind, Body, FuncType, ModuleParts, ValType, read_op};

/// Why a body is refused: at the code offset of the first instruction such that the body up to and
/// with it begins no well-typed body, or for want of memory.
#[derive(Clone, Copy)]
pub enum BodyFault {
    WrongAt(u32),
    NoMemory,
}

impl From<NoMemory> for BodyFault {
    ghost from_gives = { λ _ e. e ≡ faults.NoMemory };

    fn from(_error: NoMemory) -> Self {
        BodyFault::NoMemory
    }
}

/// A stack with the frame of a body.
fn opened(alloc: Global, t: Option<ValType>) -> Result<TypeStack, BodyFault>
    ensures { MatchResult result (λ s. s ≡ start t) (λ e. e ≡ faults.NoMemory) }
{
    let mut stack = TypeStack::new(alloc);
    match stack.open(BlockKind::Plain, t) {
        Ok(()) => Ok(stack),
        Err(_) => {
            drop(stack);
            Err(BodyFault::NoMemory)
        }
    }
}

/// Whether a body has its function's type (Core 3.4.1), with what is known before each instruction.
pub fn check_body(
    alloc: Global,
    m: &ModuleParts,
    t: &FuncType,
    body: &Body,
) -> Result<Marks, BodyFault>
    requires one_result { length t.now.results ≤ 1 }
    requires has_tree { HasTree body.now }
    requires few_locals { length (declared_locals body.now.groups) < 2 ^ 32 }
    ensures judged { Judged result m.now t.now body.now }
    ensures marked { IfOk result (λ marks. Marked marks m.now t.now body.now) }
{
    let mut stack = opened(alloc, t.results.get(0).copied())?;
    match Locals::new(alloc, t.params.as_slice(), body.groups.as_slice()) {
        Ok(locals) => {
            let mut marks = Items::new(alloc);
            let judged = through(&mut stack, m, t, body, &locals, &mut marks);
            drop(stack);
            drop(locals);
            match judged {
                Ok(()) => Ok(marks),
                Err(fault) => {
                    drop(marks);
                    Err(fault)
                }
            }
        }
        Err(NoMemory) => {
            drop(stack);
            Err(BodyFault::NoMemory)
        }
    }
}

/// Goes through the instructions of a body, and marks each.
fn through(
    stack: &mut TypeStack,
    m: &ModuleParts,
    t: &FuncType,
    body: &Body,
    locals: &Locals,
    marks: &mut Marks,
) -> Result<(), BodyFault>
    requires one_result { length t.now.results ≤ 1 }
    requires has_tree { HasTree body.now }
    requires at_start { stack.old ≡ start (slice_get t.now.results 0) }
    requires has_locals { locals.now ≡ t.now.params ++ declared_locals body.now.groups }
    requires no_marks { marks.old ≡ [] }
    ensures judged { Judged result m.now t.now body.now }
    ensures marked { OnOk result (Marked marks.new m.now t.now body.now) }
{
    let ops = body.ops.as_slice();
    let results = t.results.as_slice();
    let targets = body.targets.as_slice();
    let mut n = 0;
    while n < ops.len() {
        let op = read_op(ops, n);
        marks.push(mark_of(stack))?;
        match step(stack, m, locals, results, targets, op.code) {
            Ok(()) => {}
            Err(StackFault::Wrong) => return Err(BodyFault::WrongAt(op.at)),
            Err(StackFault::NoMemory) => return Err(BodyFault::NoMemory),
        }
        n += 1;
    }
    Ok(())
}

//! One instruction of the validation algorithm.

ghost use Rattle.std.specs.Prelude.{◌≡◌, ◌∷◌, [], List, reverse, option_to_list, option_map, slice_get, take, drop};
ghost use Rattle.std.specs.Prelude.{length, Some, None, true, false};
ghost use Rattle.validate_body.specs.calls.Frames.{pops, pushes, forget, label, no_frame};
ghost use Rattle.validate_body.specs.calls.Algorithm.{apply as apply_arrow, closed, same_option as are_same};
ghost use Rattle.validate_body.specs.calls.Algorithm.{is_label};
ghost use Rattle.validate_body.specs.calls.Algorithm.{targets_fit as targets_do_fit, step_basic, step_jump};
ghost use Rattle.validate_body.specs.calls.Algorithm.{step as step_frames, at_else, at_end, may_end as may_end_there};
ghost use Rattle.validate_body.specs.inner.Stacked.{Did};
ghost use Rattle.validate_body.specs.inner.Steps.{HasShape, context_of};
ghost use Rattle.wasm_syntax.specs.Tree.{item_of, jump_of};
ghost use Rattle.wasm_syntax.specs.declared.value.ValType.TheVariants as types;
ghost use Rattle.wasm_syntax.specs.Typing.{◌⇒◌, arrow, only_if};
ghost use Rattle.wasm_syntax.specs.Module.{option_then};

use crate::locals::Locals;
use crate::ops::{
    apply, call, call_indirect, close, drop_top, pop_all, pop_option, pop_two, push_option, select,
};
use crate::shape::{Shape, shape_of};
use crate::{StackFault, TypeStack};
use wasm_syntax::{Basic, BlockKind, Instr, Jump, ModuleParts, ValType};

fn with_shape(
    stack: &mut TypeStack,
    m: &ModuleParts,
    locals: &Locals,
    i: Basic,
) -> Result<(), StackFault>
    requires { HasShape i }
    ensures { (results : List _) → Did result
        (option_then (arrow (context_of m.now locals.now results) types.I32 i)
        (apply_arrow stack.old)) stack.new }
{
    match shape_of(m, locals, i) {
        Some(shape) => apply(stack, shape),
        None => Err(StackFault::Wrong),
    }
}

pub fn basic(
    stack: &mut TypeStack,
    m: &ModuleParts,
    locals: &Locals,
    i: Basic,
) -> Result<(), StackFault>
    ensures { (results : List _) → Did result
        (step_basic (context_of m.now locals.now results) stack.old i) stack.new }
{
    match i {
        Basic::Drop => drop_top(stack),
        Basic::Select => select(stack),
        _ => with_shape(stack, m, locals, i),
    }
}

pub fn branch(stack: &mut TypeStack, n: u32) -> Result<(), StackFault>
    ensures { Did result (option_then (label stack.old n)
        (λ t. option_map forget (pops stack.old (option_to_list t)))) stack.new }
{
    match stack.label(n as usize) {
        Some(t) => {
            pop_option(stack, t)?;
            stack.forget()
        }
        None => Err(StackFault::Wrong),
    }
}

pub fn branch_if(stack: &mut TypeStack, n: u32) -> Result<(), StackFault>
    ensures { Did result (option_then (label stack.old n)
        (λ t. apply_arrow stack.old (types.I32 ∷ option_to_list t ⇒ option_to_list t))) stack.new }
{
    match stack.label(n as usize) {
        Some(t) => apply(
            stack,
            Shape {
                first: Some(ValType::I32),
                second: t,
                third: None,
                gives: t,
            },
        ),
        None => Err(StackFault::Wrong),
    }
}

fn same_option(a: Option<ValType>, b: Option<ValType>) -> bool
    ensures { result ≡ are_same a b }
{
    match (a, b) {
        (None, None) => true,
        (Some(t), Some(u)) => t == u,
        (None, Some(_)) => false,
        (Some(_), None) => false,
    }
}

/// Whether a label takes this.
fn target_fits(stack: &TypeStack, n: u32, t: Option<ValType>) -> bool
    ensures { result ≡ is_label t (label stack.now n) }
{
    match stack.label(n as usize) {
        Some(u) => same_option(u, t),
        None => false,
    }
}

/// Whether each of so many targets from a place on takes this.
fn targets_fit(
    stack: &TypeStack,
    targets: &[u32],
    start: u32,
    count: u32,
    t: Option<ValType>,
) -> bool
    ensures { result ≡ targets_do_fit stack.now t (take count (drop start targets.now)) }
{
    let mut k = start as usize;
    let mut n = count;
    while n > 0 {
        if k >= targets.len() {
            return true;
        }
        if target_fits(stack, targets[k], t) {
            k += 1;
            n -= 1;
        } else {
            return false;
        }
    }
    true
}

pub fn branch_table(
    stack: &mut TypeStack,
    targets: &[u32],
    start: u32,
    count: u32,
    default: u32,
) -> Result<(), StackFault>
    ensures { Did result (option_then (label stack.old default)
        (λ t. only_if (targets_do_fit stack.old t (take count (drop start targets.now)))
        (option_map forget (pops stack.old (types.I32 ∷ option_to_list t))))) stack.new }
{
    match stack.label(default as usize) {
        Some(t) => {
            if !targets_fit(stack, targets, start, count, t) {
                return Err(StackFault::Wrong);
            }
            pop_two(stack, Some(ValType::I32), t)?;
            stack.forget()
        }
        None => Err(StackFault::Wrong),
    }
}

pub fn jump(
    stack: &mut TypeStack,
    m: &ModuleParts,
    results: &[ValType],
    targets: &[u32],
    j: Jump,
) -> Result<(), StackFault>
    ensures { (locals : List _) → Did result
        (step_jump (context_of m.now locals results.now) stack.old (jump_of targets.now j))
        stack.new }
{
    match j {
        Jump::Unreachable => stack.forget(),
        Jump::Br(n) => branch(stack, n),
        Jump::BrIf(n) => branch_if(stack, n),
        Jump::BrTable(start, count, default) => branch_table(stack, targets, start, count, default),
        Jump::Return => {
            pop_all(stack, results)?;
            stack.forget()
        }
        Jump::Call(g) => match m.type_of(g as usize) {
            Some(t) => call(stack, t),
            None => Err(StackFault::Wrong),
        },
        Jump::CallIndirect(t) => {
            if m.tables.is_empty() {
                return Err(StackFault::Wrong);
            }
            match m.types.get(t as usize) {
                Some(t) => call_indirect(stack, t),
                None => Err(StackFault::Wrong),
            }
        }
    }
}

fn may_end(kind: BlockKind, t: Option<ValType>) -> bool
    ensures { result ≡ may_end_there kind t }
{
    match (kind, t) {
        (BlockKind::Plain, _) => true,
        (BlockKind::Loop, _) => true,
        (BlockKind::Then, None) => true,
        (BlockKind::Then, Some(_)) => false,
    }
}

pub fn second_arm(stack: &mut TypeStack) -> Result<(), StackFault>
    ensures { Did result (option_then (closed stack.old) (λ p. at_else p.0 p.1 p.0.kind))
        stack.new }
{
    let control = close(stack)?;
    match control.kind {
        BlockKind::Then => stack.open(BlockKind::Plain, control.result),
        BlockKind::Plain => Err(StackFault::Wrong),
        BlockKind::Loop => Err(StackFault::Wrong),
    }
}

pub fn end(stack: &mut TypeStack) -> Result<(), StackFault>
    ensures { Did result (option_then (closed stack.old) (λ p. at_end p.0 p.1)) stack.new }
{
    let control = close(stack)?;
    if !may_end(control.kind, control.result) {
        return Err(StackFault::Wrong);
    }
    push_option(stack, control.result)
}

pub fn step(
    stack: &mut TypeStack,
    m: &ModuleParts,
    locals: &Locals,
    results: &[ValType],
    targets: &[u32],
    code: Instr,
) -> Result<(), StackFault>
    ensures { Did result (step_frames (context_of m.now locals.now results.now) stack.old
        (item_of targets.now code)) stack.new }
{
    if stack.is_empty() {
        return Err(StackFault::Wrong);
    }
    match code {
        Instr::Basic(i) => basic(stack, m, locals, i),
        Instr::Jump(j) => jump(stack, m, results, targets, j),
        Instr::Block(t) => stack.open(BlockKind::Plain, t),
        Instr::Loop(t) => stack.open(BlockKind::Loop, t),
        Instr::If(t) => {
            stack.pop(ValType::I32)?;
            stack.open(BlockKind::Then, t)
        }
        Instr::Else => second_arm(stack),
        Instr::End => end(stack),
    }
}

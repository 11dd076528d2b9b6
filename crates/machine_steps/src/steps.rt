//! One step.

ghost use Rattle.std.specs.Prelude.{◌≡◌, ℕ, ◌+◌, ◌<◌, ◌^◌, Some, slice_get, take, drop};
ghost use Rattle.wasm_syntax.specs.Tree.{Plain, Goes, BrTable, Call, CallIndirect, item_of, jump_of};
ghost use Rattle.wasm_syntax.specs.Machine.{Engine, Config, step};
ghost use Rattle.wasm_syntax.specs.declared.instruction.Basic.{Basic as Instruction};
ghost use Rattle.wasm_syntax.specs.declared.instruction.Instr.TheVariants as instructions;
ghost use Rattle.machine_code.specs.declared.code.Code.{Code as FlatCode};
ghost use Rattle.machine_steps.specs.calls.FramesMeet.{Point, Reads, CallPlace, step_at, call_at};
ghost use Rattle.machine_code.specs.calls.Prepares.{IsPrepared};
ghost use Rattle.machine_steps.specs.calls.Meets.{StandsFor, Here, Meets, MeetsAt, outcome_of};
ghost use Rattle.machine_steps.specs.declared.machine.Machine.{Machine as Kept};
ghost use Rattle.machine_steps.specs.inner.Moves.{InFrame, stepped_of};
ghost use Rattle.machine_steps.specs.inner.Turns.{came_to, behind, placed, Stays, NoCall};

use crate::blocks::{block, if_, loop_};
use crate::branches::{branch, branch_if, branch_table, else_, end, inside};
use crate::indirect::{Entry, resolve};
use crate::layout::{CallFrame, Reach, Stepped};
use crate::machine::{ImportCall, Machine, Outcome, of_frames};
use crate::{call, call_under_index, leave};
use machine_basics::{Performed, TrapKind, perform};
use machine_code::{Code, Prepared};
use wasm_syntax::{Basic, Instr, Jump, Op, Value};

/// What a step in a frame came to. It is a number alone, so that the loop moves no outcome from
/// place to place at each step.
#[derive(Clone, Copy)]
pub(crate) enum Turn {
    /// The next instruction is run in the same frame.
    Straight,
    /// It came to an outcome, which is told beside; it may have gone to another frame.
    Came,
}

/// Tells the outcome of a step.
#[inline(never)]
fn tell(stepped: Stepped, told: &mut Outcome)
    ensures { told.new ≡ outcome_of stepped }
{
    *told = of_frames(stepped);
}

/// A step of the frames that may stay in its frame.
#[inline(always)]
fn reached(reach: Reach, told: &mut Outcome) -> Turn
    ensures came { came_to result told.new ≡ outcome_of (stepped_of reach) }
    ensures stays { (m m' : Kept) → InFrame reach m.stack m'.stack → Stays result m m' }
{
    match reach {
        Reach::Inside => Turn::Straight,
        Reach::Beyond(stepped) => {
            tell(stepped, told);
            Turn::Came
        }
    }
}

/// Performs an instruction behind which the next one is run. The position stays as it is: the loop
/// has it in hand, and tells the machine where it leaves its instructions.
#[inline(always)]
pub(crate) fn basic(
    m: &mut Machine,
    frame: CallFrame,
    instruction: &Basic,
    told: &mut Outcome,
) -> Turn
    requires frame { slice_get m.old.stack.frames 0 ≡ Some frame }
    ensures meets { (x : Point) (code : FlatCode) (position : ℕ)
        → Here x (placed position m.old) code
        → Reads (placed position m.old).stack code (Plain instruction.now)
        → MeetsAt x (came_to result told.new) (step_at x) (placed (behind result position) m.new) }
    ensures stays { m.new.stack.frames ≡ m.old.stack.frames }
    ensures no_call { NoCall result told.new }
{
    match perform(instruction, frame.base, &mut m.stack.values, &mut m.shared) {
        Performed::Done => Turn::Straight,
        Performed::Trap(kind) => {
            tell(Stepped::Trap(kind), told);
            Turn::Came
        }
        Performed::NoMemory => {
            tell(Stepped::NoMemory, told);
            Turn::Came
        }
    }
}

/// Calls a function with its arguments on top.
fn direct(
    m: &mut Machine,
    prepared: &Prepared,
    function: usize,
    depth: usize,
    next: usize,
) -> Outcome
    requires { next ≡ m.old.stack.position + 1 }
    ensures { (x : Point) (code : FlatCode) → Here x m.old code → x.codes ≡ prepared.now.codes.items
        → IsPrepared x.engine.program prepared.now → x.engine.depth ≡ depth
        → Reads m.old.stack code (Goes (Call function)) → MeetsAt x result (step_at x) m.new }
{
    if function < prepared.imports {
        Outcome::Import(ImportCall {
            function,
            indirect: false,
            next,
        })
    } else {
        let index = function - prepared.imports;
        of_frames(call(&mut m.stack, &prepared.codes, index, depth, next))
    }
}

/// Calls a function with its arguments under the index of its entry in the table.
fn under_index(
    m: &mut Machine,
    prepared: &Prepared,
    function: usize,
    depth: usize,
    next: usize,
) -> Outcome
    requires { next ≡ m.old.stack.position + 1 }
    ensures { (x : Point) (code : FlatCode) (place : CallPlace x) → Here x m.old code
        → x.codes ≡ prepared.now.codes.items → IsPrepared x.engine.program prepared.now
        → x.engine.depth ≡ depth → MeetsAt x result
        (call_at x function place.operands place.at place.rest) m.new }
{
    if function < prepared.imports {
        Outcome::Import(ImportCall {
            function,
            indirect: true,
            next,
        })
    } else {
        let index = function - prepared.imports;
        of_frames(call_under_index(&mut m.stack, &prepared.codes, index, depth, next))
    }
}

/// Calls the function in the table that the topmost operand names, where it has this type.
fn indirect(m: &mut Machine, prepared: &Prepared, t: usize, depth: usize, next: usize) -> Outcome
    requires { next ≡ m.old.stack.position + 1 }
    ensures { (x : Point) (code : FlatCode) → Here x m.old code → x.codes ≡ prepared.now.codes.items
        → IsPrepared x.engine.program prepared.now → x.engine.depth ≡ depth
        → Reads m.old.stack code (Goes (CallIndirect t)) → MeetsAt x result (step_at x) m.new }
{
    match m.stack.values.peek(0) {
        Some(Value::I32(index)) => match resolve(prepared, m.table.as_slice(), t, index) {
            Entry::Function(function) => under_index(m, prepared, function, depth, next),
            Entry::Trap(kind) => Outcome::Trap(kind),
            Entry::Stuck => Outcome::Stuck,
        },
        Some(Value::I64(_)) => Outcome::Stuck,
        None => Outcome::Stuck,
    }
}

/// A `br_table`.
#[inline(never)]
fn by_table(
    m: &mut Machine,
    frame: &CallFrame,
    code: &Code,
    start: u32,
    count: u32,
    default: u32,
    told: &mut Outcome,
) -> Turn
    requires { slice_get m.old.stack.frames 0 ≡ Some frame.now }
    ensures meets { (x : Point) → Here x m.old code.now
        → Reads m.old.stack code.now (Goes
        (BrTable (take count (drop start code.now.body.now.targets)) default))
        → MeetsAt x (came_to result told.new) (step_at x) m.new }
    ensures stays { Stays result m.old m.new }
{
    let reach = branch_table(&mut m.stack, *frame, code, start, count, default);
    reached(reach, told)
}

/// Calls a function.
#[inline(never)]
fn call_direct(
    m: &mut Machine,
    prepared: &Prepared,
    function: u32,
    depth: usize,
    next: usize,
    told: &mut Outcome,
)
    requires { next ≡ m.old.stack.position + 1 }
    ensures { (x : Point) (code : FlatCode) → Here x m.old code → x.codes ≡ prepared.now.codes.items
        → IsPrepared x.engine.program prepared.now → x.engine.depth ≡ depth
        → Reads m.old.stack code (Goes (Call function)) → MeetsAt x told.new (step_at x) m.new }
{
    *told = direct(m, prepared, function as usize, depth, next);
}

/// Calls a function in the table.
#[inline(never)]
fn call_indirect(
    m: &mut Machine,
    prepared: &Prepared,
    t: u32,
    depth: usize,
    next: usize,
    told: &mut Outcome,
)
    requires { next ≡ m.old.stack.position + 1 }
    ensures { (x : Point) (code : FlatCode) → Here x m.old code → x.codes ≡ prepared.now.codes.items
        → IsPrepared x.engine.program prepared.now → x.engine.depth ≡ depth
        → Reads m.old.stack code (Goes (CallIndirect t)) → MeetsAt x told.new (step_at x) m.new }
{
    *told = indirect(m, prepared, t as usize, depth, next);
}

/// The innermost frame, and the code of its function.
#[derive(Drop)]
pub(crate) struct Innermost<'c, 'a> {
    pub(crate) frame: CallFrame,
    pub(crate) code: &'c Code<'a>,
}

/// An instruction that may go elsewhere.
#[inline(always)]
fn jump(
    m: &mut Machine,
    prepared: &Prepared,
    innermost: &Innermost<'_, '_>,
    jump: &Jump,
    depth: usize,
    next: usize,
    told: &mut Outcome,
) -> Turn
    requires next { next ≡ m.old.stack.position + 1 }
    requires frame { slice_get m.old.stack.frames 0 ≡ Some innermost.now.frame }
    ensures meets { (x : Point) → Here x m.old innermost.now.code.now
        → x.codes ≡ prepared.now.codes.items
        → IsPrepared x.engine.program prepared.now → x.engine.depth ≡ depth
        → Reads m.old.stack innermost.now.code.now
        (Goes (jump_of innermost.now.code.now.body.now.targets jump.now))
        → MeetsAt x (came_to result told.new) (step_at x) m.new }
    ensures stays { Stays result m.old m.new }
{
    let frame = innermost.frame;
    let code = innermost.code;
    match jump {
        Jump::Br(n) => reached(branch(&mut m.stack, frame, code.gives, *n as usize), told),
        Jump::BrIf(n) => reached(branch_if(&mut m.stack, frame, code.gives, *n, next), told),
        Jump::BrTable(start, count, default) => {
            by_table(m, &innermost.frame, code, *start, *count, *default, told)
        }
        Jump::Return => reached(Reach::Beyond(leave(&mut m.stack, code.gives)), told),
        Jump::Unreachable => { reached(Reach::Beyond(Stepped::Trap(TrapKind::Unreachable)), told) }
        Jump::Call(function) => {
            call_direct(m, prepared, *function, depth, next, told);
            Turn::Came
        }
        Jump::CallIndirect(t) => {
            call_indirect(m, prepared, *t, depth, next, told);
            Turn::Came
        }
    }
}

/// Runs an instruction that opens, ends or leaves a block, or jumps.
// It is inlined in the loop with its usual parts, which take no more than a call of them would. The
// rare ones are called.
#[inline(always)]
fn control(
    m: &mut Machine,
    prepared: &Prepared,
    innermost: &Innermost<'_, '_>,
    instruction: &Instr,
    depth: usize,
    next: usize,
    told: &mut Outcome,
) -> Turn
    requires next { next ≡ m.old.stack.position + 1 }
    requires control { (i : Instruction) → instruction.now ≡ instructions.Basic i → ⊥ }
    requires frame { slice_get m.old.stack.frames 0 ≡ Some innermost.now.frame }
    ensures meets { (x : Point) → Here x m.old innermost.now.code.now
        → x.codes ≡ prepared.now.codes.items
        → IsPrepared x.engine.program prepared.now → x.engine.depth ≡ depth
        → Reads m.old.stack innermost.now.code.now
        (item_of innermost.now.code.now.body.now.targets instruction.now)
        → MeetsAt x (came_to result told.new) (step_at x) m.new }
    ensures stays { Stays result m.old m.new }
{
    let frame = innermost.frame;
    let code = innermost.code;
    match instruction {
        Instr::Basic(_) => unreachable!(),
        Instr::Jump(to) => jump(m, prepared, innermost, to, depth, next, told),
        Instr::Block(t) => reached(inside(block(&mut m.stack, code, *t, next)), told),
        Instr::Loop(_) => reached(inside(loop_(&mut m.stack, next)), told),
        Instr::If(t) => reached(inside(if_(&mut m.stack, code, *t, next)), told),
        Instr::Else => reached(inside(else_(&mut m.stack)), told),
        Instr::End => reached(end(&mut m.stack, frame, code.gives, next), told),
    }
}

/// One step of the machine in its innermost frame, which runs this code, is one step of each
/// configuration that it stands for. The instruction at its position is this one, which opens, ends
/// or leaves a block, or jumps. An outcome is told where it may have gone elsewhere.
#[inline(always)]
pub(crate) fn step_in(
    m: &mut Machine,
    prepared: &Prepared,
    innermost: &Innermost<'_, '_>,
    op: &Op,
    depth: usize,
    told: &mut Outcome,
) -> Turn
    requires room { m.old.stack.position + 1 < 2 ^ 64 }
    requires frame { slice_get m.old.stack.frames 0 ≡ Some innermost.now.frame }
    requires code { slice_get prepared.now.codes.items innermost.now.frame.function
        ≡ Some innermost.now.code.now }
    requires op { slice_get innermost.now.code.now.body.now.ops m.old.stack.position ≡ Some op.now }
    requires control { (i : Instruction) → op.now.code ≡ instructions.Basic i → ⊥ }
    ensures meets { (engine : Engine) (c : Config) → IsPrepared engine.program prepared.now
        → engine.depth ≡ depth → StandsFor engine.program prepared.now.codes.items m.old c
        → Meets engine prepared.now.codes.items c (came_to result told.new) (step engine c) m.new }
    ensures stays { Stays result m.old m.new }
{
    let next = m.stack.position + 1;
    control(m, prepared, innermost, &op.code, depth, next, told)
}

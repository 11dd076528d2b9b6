//! Steps up to the fuel.

ghost use Rattle.std.specs.Prelude.{◌≡◌, ℕ, ◌<◌, ◌≤◌, ◌-◌, ◌+◌, ◌^◌, Some, length, slice_get, take, drop};
ghost use Rattle.std.specs.Prelude.{IfSome, MatchOption};
ghost use Rattle.wasm_syntax.specs.Machine.{Engine, Config};
ghost use Rattle.wasm_syntax.specs.declared.instruction.Basic.{Basic as Instruction};
ghost use Rattle.wasm_syntax.specs.declared.instruction.Instr.TheVariants as instructions;
ghost use Rattle.machine_code.specs.declared.prepared.Prepared.{Prepared as Prepares};
ghost use Rattle.machine_steps.specs.declared.machine.Machine.{Machine as Kept};
ghost use Rattle.machine_steps.specs.calls.Runs.{Begins, Came};
ghost use Rattle.machine_steps.specs.calls.Watched.{Watched};
ghost use Rattle.machine_steps.specs.inner.Turns.{Made, Went};

use crate::calls::code_at;
use crate::machine::{Machine, Outcome};
use crate::steps::{Innermost, Turn, basic, step_in};
use crate::watch::{Watch, standing};
use machine_code::Prepared;
use wasm_syntax::{Instr, Op};

/// What a run came to, and the number of steps that it made. The step that traps counts; a call of
/// an import is not made yet.
#[derive(Clone, Copy)]
pub struct Ended {
    pub outcome: Outcome,
    pub steps: u64,
}

/// How many steps of a run were made, and how many there may be.
#[derive(Clone, Copy)]
struct Steps {
    made: u64,
    fuel: u64,
}

/// The instructions from a position on, as many as there may be steps.
#[inline(always)]
fn part(ops: &[Op], start: usize, left: u64) -> &[Op]
    ensures part { result.now ≡ take left (drop start ops.now) }
    ensures room { length ops.now < 2 ^ 64 }
{
    if start < ops.len() {
        let rest = &ops[start..];
        if left < rest.len() as u64 {
            &rest[..left as usize]
        } else {
            rest
        }
    } else {
        &ops[..0]
    }
}

/// Steps of instructions behind which the next one is run, up to another instruction, which is
/// given, and which the machine stands at then. Where it gives none, the steps came to what is told.
// The fuel and the end of the code are one test, and the position is worked out where the loop is
// left, so that no register holds it. What watches is told of the steps there, too.
#[inline(always)]
fn straight<'o, W: Watch>(
    m: &mut Machine,
    innermost: &Innermost<'_, '_>,
    ops: &'o [Op],
    left: &mut u64,
    watch: &mut W,
    told: &mut Outcome,
) -> Option<&'o Op>
    requires frame { slice_get m.old.stack.frames 0 ≡ Some innermost.now.frame }
    requires ops { ops.now ≡ innermost.now.code.now.body.now.ops }
    requires some { 0 < left.old }
    ensures went { (prepared : Prepares) (depth start fuel : ℕ) (first : Kept) (before : W)
        → slice_get prepared.codes.items innermost.now.frame.function ≡ Some innermost.now.code.now
        → left.old ≤ fuel → start ≤ fuel - left.old
        → Made W.Saw prepared depth first before (fuel - left.old) m.old watch.old
        → MatchOption result
        (Went W.Saw prepared depth first before start fuel told.new (fuel - left.new) m.new
        watch.new)
        (λ op. Made W.Saw prepared depth first before (fuel - left.new) m.new watch.new) }
    ensures at { IfSome result (λ op. slice_get ops.now m.new.stack.position ≡ Some op.now) }
    ensures other { IfSome result (λ op. (i : Instruction) → op.now.code ≡ instructions.Basic i
        → ⊥) }
    ensures stays { IfSome result (λ op. m.new.stack.frames ≡ m.old.stack.frames) }
    ensures room { IfSome result (λ op. m.new.stack.position + 1 < 2 ^ 64) }
    ensures some_left { IfSome result (λ op. 0 < left.new) }
    ensures few { left.new ≤ left.old }
{
    let start = m.stack.position;
    let mut rest = part(ops, start, *left);
    let count = rest.len();
    while let Some(op) = rest.first() {
        match &op.code {
            Instr::Basic(instruction) => match basic(m, innermost.frame, instruction, told) {
                Turn::Straight => {}
                Turn::Came => {
                    let made = count - rest.len();
                    watch.see_run(innermost.frame.function, start, made + 1);
                    m.stack.position = start + made;
                    *left -= made as u64;
                    *left -= 1;
                    return None;
                }
            },
            _ => {
                let made = count - rest.len();
                watch.see_run(innermost.frame.function, start, made);
                m.stack.position = start + made;
                *left -= made as u64;
                return Some(op);
            }
        }
        // Written here and not above, so that what an instruction came to is not tested again.
        rest = &rest[1..];
    }
    watch.see_run(innermost.frame.function, start, count);
    m.stack.position = start + count;
    *left -= count as u64;
    if *left == 0 {
        *told = Outcome::Next;
        return None;
    }
    // The code is at its end.
    watch.see(standing(innermost.frame, start + count));
    *left -= 1;
    *told = Outcome::Stuck;
    None
}

/// Steps in the innermost frame, behind the first ones of a run, up to one that may have gone
/// elsewhere. What that came to is told, and the number of steps of the run is given.
#[inline(always)]
fn steps_in<W: Watch>(
    m: &mut Machine,
    prepared: &Prepared,
    innermost: &Innermost<'_, '_>,
    depth: usize,
    steps: Steps,
    watch: &mut W,
    told: &mut Outcome,
) -> u64
    requires frame { slice_get m.old.stack.frames 0 ≡ Some innermost.now.frame }
    requires code { slice_get prepared.now.codes.items innermost.now.frame.function
        ≡ Some innermost.now.code.now }
    requires fuel { steps.made < steps.fuel }
    ensures { (first : Kept) (before : W)
        → Made W.Saw prepared.now depth first before steps.made m.old watch.old
        → Went W.Saw prepared.now depth first before steps.made steps.fuel told.new result m.new
        watch.new }
{
    let code = innermost.code;
    let ops = code.body.ops.as_slice();
    let mut left = steps.fuel - steps.made;
    while left > 0 {
        let Some(op) = straight(m, innermost, ops, &mut left, watch, told) else {
            return steps.fuel - left;
        };
        watch.see(standing(innermost.frame, m.stack.position));
        match step_in(m, prepared, innermost, op, depth, told) {
            Turn::Straight => {}
            Turn::Came => match *told {
                Outcome::Import(_) => return steps.fuel - left,
                _ => return steps.fuel - left + 1,
            },
        }
        left -= 1;
    }
    *told = Outcome::Next;
    steps.fuel
}

/// The same, in the frame that is the innermost one.
#[inline(always)]
fn go_on<W: Watch>(
    m: &mut Machine,
    prepared: &Prepared,
    depth: usize,
    made: u64,
    fuel: u64,
    watch: &mut W,
    told: &mut Outcome,
) -> u64
    requires { made < fuel }
    ensures { (first : Kept) (before : W) → Made W.Saw prepared.now depth first before made m.old watch.old
        → Went W.Saw prepared.now depth first before made fuel told.new result m.new watch.new }
{
    match m.stack.frames.peek(0) {
        Some(frame) => match code_at(&prepared.codes, frame.function) {
            Some(code) => {
                let innermost = Innermost { frame, code };
                steps_in(
                    m,
                    prepared,
                    &innermost,
                    depth,
                    Steps { made, fuel },
                    watch,
                    told,
                )
            }
            None => {
                *told = Outcome::Stuck;
                made
            }
        },
        None => {
            *told = Outcome::Stuck;
            made
        }
    }
}

/// At most so many steps, up to the first one that does not go on. `Next` says that the fuel is
/// spent. A watch sees each step, also that of the call of an import.
// It is called, as inside of a large function its loop would have no registers left.
#[inline(never)]
pub fn run_watched<W: Watch>(
    m: &mut Machine,
    prepared: &Prepared,
    depth: usize,
    fuel: u64,
    watch: &mut W,
) -> Ended
    ensures came { (engine : Engine) (c : Config) → Begins engine prepared.now depth c m.old
        → Came engine prepared.now.codes.items c fuel result.outcome result.steps m.new }
    ensures watched { Watched W.Saw prepared.now depth fuel m.old result.outcome result.steps
        watch.old watch.new }
{
    let mut made = 0;
    let mut told = Outcome::Next;
    while made < fuel {
        let steps = go_on(m, prepared, depth, made, fuel, watch, &mut told);
        match told {
            Outcome::Next => made = steps,
            _ => {
                return Ended {
                    outcome: told,
                    steps,
                };
            }
        }
    }
    Ended {
        outcome: Outcome::Next,
        steps: fuel,
    }
}

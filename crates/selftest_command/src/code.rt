//! The code of a function of a self-test.

ghost use Rattle.std.specs.Prelude.{◌≡◌, ◌*◌, ◌+◌, ◌<◌, ◌≤◌, ◌^◌, ◌++◌, ◌∷◌, [], length, OnOk, IfOk, ℕ};
ghost use Rattle.wasm_syntax.specs.declared.value.ValType.TheVariants.{I32};
ghost use Rattle.wasm_syntax.specs.declared.instruction.Basic.TheVariants as basics;
ghost use Rattle.wasm_syntax.specs.declared.instruction.Instr.TheVariants as instrs;
ghost use Rattle.selftest_command.specs.Selftest.{number, constant as constant_there, local_get as local_get_there};
ghost use Rattle.selftest_command.specs.Selftest.{mix as mix_there, mixed as mixed_there, beginning as beginning_there};
ghost use Rattle.selftest_command.specs.Selftest.{mixing as mixing_there, ending as ending_there};
ghost use Rattle.selftest_command.specs.Selftest.{function_code as function_code_there, body_of as body_there};

use crate::numbers::{next, odd};
use causes::NoMemory;
use int_ops::Binary;
use pm_text::Items;
use std::alloc::Global;
use wasm_syntax::{Basic, Body, Instr, Jump, Op, Store, ValType, Value};

/// The instructions of a function, in order.
type Code = Items<Instr>;

fn constant(value: u32) -> Instr
    ensures { result ≡ constant_there value }
{
    Instr::Basic(Basic::Const(Value::I32(value)))
}

fn local_get(local: u32) -> Instr
    ensures { result ≡ local_get_there local }
{
    Instr::Basic(Basic::LocalGet(local))
}

fn binary(op: Binary) -> Instr
    ensures { result ≡ instrs.Basic (basics.Binary I32 op) }
{
    Instr::Basic(Basic::Binary(ValType::I32, op))
}

/// What mixes in a number, by the lowest two bits of its upper half.
fn mix(choice: u32) -> Instr
    requires { choice < 4 }
    ensures { result ≡ mix_there choice }
{
    match choice {
        0 => binary(Binary::Add),
        1 => binary(Binary::Xor),
        2 => binary(Binary::Mul),
        _ => binary(Binary::Sub),
    }
}

/// Parameter 0 is stored at an address for each function, and both parameters are read.
fn push_beginning(code: &mut Code, i: u32) -> Result<(), NoMemory>
    requires { i < 1000 }
    ensures { OnOk result (code.new ≡ code.old ++ beginning_there i) }
{
    code.push(constant(4 * i))?;
    code.push(local_get(0))?;
    code.push(Instr::Basic(Basic::Store(Store::Full(ValType::I32), 2, 0)))?;
    code.push(local_get(1))?;
    code.push(local_get(0))
}

/// A number is mixed in.
fn push_mixed(code: &mut Code, r: u32) -> Result<(), NoMemory>
    ensures { OnOk result (code.new ≡ code.old ++ mixed_there r) }
{
    code.push(constant(odd(r)))?;
    code.push(mix(r / 65_536 % 4))
}

/// Sixteen numbers are mixed in, which come behind `before`. The last of them is given.
fn push_mixing(code: &mut Code, before: u32) -> Result<u32, NoMemory>
    ensures { (n k : ℕ) → before ≡ number n k
        → IfOk result (λ r. (code.new ≡ code.old ++ mixing_there n (k + 1))
        × (r ≡ number n (k + 16))) }
{
    let mut r = before;
    for made in 0..16u32 {
        r = next(r);
        push_mixed(code, r)?;
    }
    Ok(r)
}

/// A call of the next function, or a division by zero in the last one.
fn push_ending(code: &mut Code, count: u32, i: u32) -> Result<(), NoMemory>
    requires { i < 1000 }
    ensures { OnOk result (code.new ≡ code.old ++ ending_there count i) }
{
    if i + 1 < count {
        code.push(local_get(1))?;
        code.push(Instr::Jump(Jump::Call(i + 1)))?;
    } else {
        code.push(constant(0))?;
        code.push(binary(Binary::DivU))?;
    }
    code.push(binary(Binary::Add))
}

/// The code of a function, whose numbers come behind `before`, and the last of them.
pub fn function_code(
    alloc: Global,
    count: u32,
    i: u32,
    before: u32,
) -> Result<(Items<Instr>, u32), NoMemory>
    requires { i < 1000 }
    ensures { before ≡ number count (16 * i)
        → IfOk result (λ x. (x.0 ≡ function_code_there count i)
        × (x.1 ≡ number count (16 * (i + 1)))) }
{
    let mut code = Items::new(alloc);
    push_beginning(&mut code, i)?;
    let last = push_mixing(&mut code, before)?;
    push_ending(&mut code, count, i)?;
    code.push(Instr::End)?;
    Ok((code, last))
}

/// The body of these instructions, without declared locals.
pub fn body_of(alloc: Global, code: &[Instr]) -> Result<Body, NoMemory>
    requires { length code.now < 2 ^ 32 }
    ensures { IfOk result (λ body. body ≡ body_there code.now) }
{
    let mut ops = Items::new(alloc);
    for i in 0..code.len() {
        ops.push(Op {
            at: i as u32,
            len: 0,
            code: code[i],
        })?;
    }
    Ok(Body {
        groups: Items::new(alloc),
        ops,
        targets: Items::new(alloc),
        start: 0,
    })
}

//! Expressions (Core 5.4.6).

ghost use Rattle.std.specs.Prelude.{◌≡◌, ◌≤◌, length, OnOk};
ghost use Rattle.wasm_bytes.specs.Place.{Moves, Stays};
ghost use Rattle.wasm_bytes.specs.calls.Answers.{Gives, with_state};
ghost use Rattle.wasm_format.specs.Expressions.{code_of, float_of, may_stand, open_behind, instr_step};
ghost use Rattle.wasm_format.specs.Expressions.{expression_from, expression_item};
ghost use Rattle.wasm_decode.specs.calls.Steps.{instr_steps};

use crate::input::Input;
use causes::NoMemory;
use pm_text::{Items, Stack};
use std::alloc::Global;
use wasm_bytes::{ItemFault, Noted};
use wasm_format::{Code, Expression};
use wasm_syntax::{Basic, BlockKind, Body, Instr, Op};

/// The instruction, or what stands in the place of one that has a float type: one that opens the
/// same, or nothing.
fn instr_of(opcode: u8, code: &Code) -> Instr
    ensures { result ≡ code_of opcode code.now }
{
    match code {
        Code::Known(instr) => *instr,
        Code::Float { .. } => match opcode {
            0x02 => Instr::Block(None),
            0x03 => Instr::Loop(None),
            0x04 => Instr::If(None),
            _ => Instr::Basic(Basic::Nop),
        },
    }
}

fn float_of(code: &Code) -> Option<usize>
    ensures { result ≡ float_of code.now }
{
    match code {
        Code::Known(_) => None,
        Code::Float { at } => Some(*at),
    }
}

/// An `else` stands only in an `if` that has none yet.
fn may_stand(blocks: &Stack<BlockKind>, instr: &Instr) -> bool
    ensures { result ≡ may_stand blocks.now instr.now }
{
    match instr {
        Instr::Else => match blocks.peek(0) {
            Some(BlockKind::Then) => true,
            Some(BlockKind::Plain | BlockKind::Loop) | None => false,
        },
        _ => true,
    }
}

/// Opens and closes blocks as an instruction does.
fn go_behind(blocks: &mut Stack<BlockKind>, instr: &Instr) -> Result<(), NoMemory>
    ensures { OnOk result (blocks.new ≡ open_behind blocks.old instr.now) }
{
    match instr {
        Instr::Basic(_) | Instr::Jump(_) => {}
        Instr::Block(_) => blocks.push(BlockKind::Plain)?,
        Instr::Loop(_) => blocks.push(BlockKind::Loop)?,
        Instr::If(_) => blocks.push(BlockKind::Then)?,
        Instr::Else => {
            if blocks.pop().is_some() {
                blocks.push(BlockKind::Plain)?;
            }
        }
        Instr::End => {
            blocks.pop();
        }
    }
    Ok(())
}

/// One more instruction. There are no more targets than bytes before it.
fn take_instr(expression: &mut Expression, input: &mut Input<'_>) -> Result<(), ItemFault>
    requires { length expression.old.targets ≤ input.old.at }
    ensures item { Gives (with_state expression.new result) input.new
        (instr_step expression.old input.old) }
    ensures moves { OnOk result (Moves input.old input.new) }
    ensures few { OnOk result (length expression.new.targets ≤ input.new.at) }
{
    let at = input.at();
    let opcode = input.first();
    let code = input.code(&mut expression.targets)?;
    let instr = instr_of(opcode, &code);
    if !may_stand(&expression.blocks, &instr) {
        return Err(ItemFault::At(at as usize));
    }
    go_behind(&mut expression.blocks, &instr)?;
    expression.ops.push(Op {
        at: at.saturating_sub(expression.origin),
        len: input.at() - at,
        code: instr,
    })?;
    expression.float = expression.float.or(float_of(&code));
    Ok(())
}

fn take_instrs(expression: &mut Expression, input: &mut Input<'_>) -> Result<(), ItemFault>
    requires { length expression.old.targets ≤ input.old.at }
    ensures item { Gives (with_state expression.new result) input.new
        (instr_steps expression.old input.old) }
    ensures stays { OnOk result (Stays input.old input.new) }
{
    'instrs: while expression.blocks.len() > 0 {
        // The place is inside its block, so that fewer bytes are left behind the instruction.
        let _at = input.at();
        take_instr(expression, input)?;
    }
    Ok(())
}

/// An expression up to its own `end`, whose code offsets count from this offset in bytes from the
/// first byte of the input.
#[tactic(auto, unfolding(crate::specs::calls::Steps::instr_steps, wasm_format::specs::Expressions::expression_from))]
pub fn expression(
    alloc: Global,
    origin: u32,
    input: &mut Input<'_>,
) -> Result<Expression, ItemFault>
    ensures item { Gives result input.new (expression_from origin input.old) }
    ensures stays { OnOk result (Stays input.old input.new) }
{
    let mut blocks = Stack::new(alloc);
    blocks.push(BlockKind::Plain)?;
    let mut expression = Expression {
        origin,
        ops: Items::new(alloc),
        targets: Items::new(alloc),
        blocks,
        float: None,
    };
    match take_instrs(&mut expression, input) {
        Ok(()) => Ok(expression),
        Err(fault) => {
            drop(expression);
            Err(fault)
        }
    }
}

/// An expression that stands alone. Its code offsets count from its first byte.
#[tactic(auto, unfolding(wasm_format::specs::Expressions::expression_item))]
pub fn constant(alloc: Global, input: &mut Input<'_>) -> Result<Noted<Body>, ItemFault>
    ensures item { Gives result input.new (expression_item input.old) }
    ensures stays { OnOk result (Stays input.old input.new) }
{
    let origin = input.at();
    let expression = expression(alloc, origin, input)?;
    Ok(Noted {
        value: Body {
            groups: Items::new(alloc),
            ops: expression.ops,
            targets: expression.targets,
            start: 0,
        },
        float: expression.float,
    })
}

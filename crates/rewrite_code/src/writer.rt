//! The code that is being written.

ghost use Rattle.std.specs.Prelude.{◌≡◌, ◌+◌, ◌<◌, ◌≤◌, ◌^◌, nat_lt, length, IfOk, OnOk, None};
ghost use Rattle.wasm_syntax.specs.Module.{Ascend};
ghost use Rattle.wasm_syntax.specs.Tree.{Nodes, stop, basic, jump, block, loop, choose, Unreachable, Br, BrIf, BrTable};
ghost use Rattle.wasm_syntax.specs.Tree.{Return, CallIndirect};
ghost use Rattle.rewrite_bodies.specs.calls.Pieces.{const, call};
ghost use Rattle.wasm_syntax.specs.SameCode.{body_code};
ghost use Rattle.rewrite_modules.specs.calls.FlatCode.{body_of};
ghost use Rattle.rewrite_code.specs.inner.Numbered.{numbered};
ghost use Rattle.rewrite_code.specs.calls.Writing.{nothing, with_op, Emits, EmitsLast, Opens, OpensArms, Alternates};
ghost use Rattle.rewrite_code.specs.calls.Writing.{Closes};

use causes::NoMemory;
use pm_text::Items;
use std::alloc::Global;
use std::marker::Model;
use wasm_syntax::{Basic, Body, Instr, Jump, LocalGroups, Op, ValType, Value};

/// Flat code, each instruction at offset 0 with length 0, with the targets of its `br_table`s.
/// Offsets come with the finished body.
#[derive(Drop)]
pub struct CodeWriter {
    ops: Items<Op>,
    targets: Items<u32>,
}

impl Model for CodeWriter {
    ghost use Rattle.rewrite_code.specs.calls.Writing.{Written, written};

    ghost Value = { Written };

    ghost view = { λ s. written s.ops s.targets };
}

/// Puts each instruction at the offset of its number.
fn number(ops: &mut [Op])
    ensures { ops.new ≡ numbered 0 ops.old }
{
    let mut at: u32 = 0;
    for op in ops.iter_mut() {
        op.at = at;
        at = at.saturating_add(1);
    }
}

impl CodeWriter {
    /// No code, which takes no memory.
    pub fn new(alloc: Global) -> Self
        ensures { result ≡ nothing }
    {
        CodeWriter {
            ops: Items::new(alloc),
            targets: Items::new(alloc),
        }
    }

    /// An instruction behind the code.
    fn push(&mut self, code: Instr) -> Result<(), NoMemory>
        ensures { OnOk result (self.new ≡ with_op self.old code) }
    {
        self.ops.push(Op {
            at: 0,
            len: 0,
            code,
        })
    }

    /// A basic instruction.
    pub fn basic(&mut self, instruction: Basic) -> Result<(), NoMemory>
        ensures { OnOk result (Emits (basic 0 instruction) self.old self.new) }
    {
        self.push(Instr::Basic(instruction))
    }

    /// A constant.
    pub fn const_value(&mut self, value: Value) -> Result<(), NoMemory>
        ensures { OnOk result (Emits (const value) self.old self.new) }
    {
        self.push(Instr::Basic(Basic::Const(value)))
    }

    /// `unreachable`.
    pub fn unreachable(&mut self) -> Result<(), NoMemory>
        ensures { OnOk result (Emits (jump 0 Unreachable) self.old self.new) }
    {
        self.push(Instr::Jump(Jump::Unreachable))
    }

    /// `br`.
    pub fn branch(&mut self, label: u32) -> Result<(), NoMemory>
        ensures { OnOk result (Emits (jump 0 (Br label)) self.old self.new) }
    {
        self.push(Instr::Jump(Jump::Br(label)))
    }

    /// `br_if`.
    pub fn branch_if(&mut self, label: u32) -> Result<(), NoMemory>
        ensures { OnOk result (Emits (jump 0 (BrIf label)) self.old self.new) }
    {
        self.push(Instr::Jump(Jump::BrIf(label)))
    }

    /// Whether so many targets more can still be counted.
    pub fn has_room(&self, count: usize) -> bool
        ensures { result ≡ nat_lt (length self.now.targets + count) (2 ^ 32) }
    {
        let held = self.targets.len();
        held < 0x0001_0000_0000 && count < 0x0001_0000_0000 - held
    }

    /// `br_table`, with its targets.
    pub fn branch_table(&mut self, targets: &[u32], default_label: u32) -> Result<(), NoMemory>
        requires { length self.old.targets + length targets.now < 2 ^ 32 }
        ensures { OnOk result (Emits (jump 0 (BrTable targets.now default_label)) self.old
            self.new) }
    {
        let start = self.targets.len() as u32;
        let count = targets.len() as u32;
        self.targets.extend_from_slice(targets)?;
        self.push(Instr::Jump(Jump::BrTable(start, count, default_label)))
    }

    /// `return`.
    pub fn return_values(&mut self) -> Result<(), NoMemory>
        ensures { OnOk result (Emits (jump 0 Return) self.old self.new) }
    {
        self.push(Instr::Jump(Jump::Return))
    }

    /// A call of a function.
    pub fn call(&mut self, function: u32) -> Result<(), NoMemory>
        ensures { OnOk result (Emits (call function) self.old self.new) }
    {
        self.push(Instr::Jump(Jump::Call(function)))
    }

    /// `call_indirect`, of a function of this type.
    pub fn call_indirect(&mut self, ftype: u32) -> Result<(), NoMemory>
        ensures { OnOk result (Emits (jump 0 (CallIndirect ftype)) self.old self.new) }
    {
        self.push(Instr::Jump(Jump::CallIndirect(ftype)))
    }

    /// The beginning of a block.
    pub fn open_block(&mut self, gives: Option<ValType>) -> Result<(), NoMemory>
        ensures { OnOk result (Opens (λ inner k. block 0 gives inner 0 k) self.old self.new) }
    {
        self.push(Instr::Block(gives))
    }

    /// The beginning of a loop.
    pub fn open_loop(&mut self, gives: Option<ValType>) -> Result<(), NoMemory>
        ensures { OnOk result (Opens (λ inner k. loop 0 gives inner 0 k) self.old self.new) }
    {
        self.push(Instr::Loop(gives))
    }

    /// The beginning of an `if`.
    pub fn open_if(&mut self, gives: Option<ValType>) -> Result<(), NoMemory>
        ensures one_arm { OnOk result
            (Opens (λ arm k. choose 0 gives arm None stop 0 k) self.old self.new) }
        ensures two_arms { OnOk result (OpensArms gives self.old self.new) }
    {
        self.push(Instr::If(gives))
    }

    /// `else`.
    pub fn alternate(&mut self) -> Result<(), NoMemory>
        ensures { OnOk result (Alternates self.old self.new) }
    {
        self.push(Instr::Else)
    }

    /// `end`.
    pub fn close(&mut self) -> Result<(), NoMemory>
        ensures { OnOk result (Closes self.old self.new) }
    {
        self.push(Instr::End)
    }

    /// The body with these groups of locals, and with its last `end`. Its instructions stand at
    /// ascending offsets, where 32 bits count them.
    pub fn finish(mut self, groups: LocalGroups) -> Result<Body, NoMemory>
        ensures code { (nodes : Nodes) → EmitsLast nodes nothing self
            → IfOk result (λ body. body_code body ≡ body_code (body_of groups nodes)) }
        ensures offsets { IfOk result (λ body. length body.ops ≤ 2 ^ 32 → Ascend 0 body.ops) }
    {
        self.push(Instr::End)?;
        let mut ops = self.ops.into_vec();
        number(&mut ops);
        Ok(Body {
            groups,
            ops: Items::from_vec(ops),
            targets: self.targets,
            start: 0,
        })
    }
}

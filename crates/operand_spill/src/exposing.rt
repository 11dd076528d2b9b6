//! Which instructions of a body need a guard: those that can trap, and that no access before answers.

ghost use Rattle.std.specs.Prelude.{◌≡◌, ◌||◌, ◌==◌, ◌+◌, ◌^◌, ◌<◌, ◌≤◌, ℕ, List, [], IfOk, OnOk};
ghost use Rattle.wasm_syntax.specs.Tree.{Tree, Writes, Plain, code_of, item_of};
ghost use Rattle.rewrite_bodies.specs.calls.Slots.{local_written};
ghost use Rattle.rewrite_bodies.specs.calls.Facts.{no_copies, copies_behind};
ghost use Rattle.rewrite_bodies.specs.calls.Facts.{first_facts, facts_behind, frail, exposed_in};
ghost use Rattle.operand_spill.specs.inner.Exposing.{held, deeper, marked_by, here, latest};
ghost use Rattle.operand_spill.specs.inner.Exposing.{older, entered, begun, passed, is_exposed};
ghost use Rattle.operand_spill.specs.inner.Exposing.{exposed_along, one_more};

use crate::copies::KnownCopies;
use crate::facts::{Facts, shown};
use causes::NoMemory;
use rewrite_code::{Offsets, can_trap};
use std::alloc::Global;
use std::collections::BTreeSet;
use std::marker::Model;
use wasm_syntax::{Basic, Instr, ModuleParts, Op, read_op};

// ---- locals that blocks write

/// The local that an instruction writes.
pub(crate) fn local_written(instruction: Basic) -> Option<u32>
    ensures { result ≡ local_written instruction }
{
    match instruction {
        Basic::LocalSet(local) | Basic::LocalTee(local) => Some(local),
        _ => None,
    }
}

/// A local more.
fn mark(marks: &mut BTreeSet<u32>, local: u32) -> Result<(), NoMemory>
    ensures { OnOk result ((x : ℕ) → held marks.new x ≡ (held marks.old x || (local == x))) }
{
    marks.insert(local)?;
    Ok(())
}

/// The local that an instruction writes, if it stands in a block.
fn mark_written(marks: &mut BTreeSet<u32>, depth: usize, instruction: Basic) -> Result<(), NoMemory>
    ensures { OnOk result ((x : ℕ)
        → held marks.new x ≡ (held marks.old x || marked_by depth (Plain instruction) x)) }
{
    if depth == 0 {
        return Ok(());
    }
    match local_written(instruction) {
        Some(local) => mark(marks, local),
        None => Ok(()),
    }
}

/// The same of any instruction.
fn mark_at(marks: &mut BTreeSet<u32>, depth: usize, code: Instr) -> Result<(), NoMemory>
    ensures { (targets : List ℕ) → OnOk result ((x : ℕ)
        → held marks.new x ≡ (held marks.old x || marked_by depth (item_of targets code) x)) }
{
    match code {
        Instr::Basic(instruction) => mark_written(marks, depth, instruction),
        _ => Ok(()),
    }
}

/// How many blocks are open behind an instruction inside so many.
fn deeper(depth: usize, code: Instr) -> usize
    requires { depth < 2 ^ 63 }
    ensures value { (targets : List ℕ) → result ≡ deeper (item_of targets code) depth }
    ensures bound { result ≤ depth + 1 }
{
    match code {
        Instr::Block(_) | Instr::Loop(_) | Instr::If(_) => depth + 1,
        Instr::End => depth.saturating_sub(1),
        Instr::Basic(_) | Instr::Jump(_) | Instr::Else => depth,
    }
}

/// The locals that blocks of a body write.
fn written_in_blocks(alloc: Global, ops: &[Op]) -> Result<BTreeSet<u32>, NoMemory>
    ensures { (targets : List ℕ) (tree : Tree) → Writes targets ops.now tree
        → IfOk result (λ marks. (x : ℕ) → held marks x ≡ frail tree.nodes x) }
{
    let mut marks = BTreeSet::new(alloc);
    let mut depth = 0;
    let mut pc = 0;
    while pc < ops.len() {
        let op = read_op(ops, pc);
        mark_at(&mut marks, depth, op.code)?;
        depth = deeper(depth, op.code);
        pc += 1;
    }
    Ok(marks)
}

// ---- what is known along a body

/// What is known before an instruction: facts, what the three topmost operands are, and the facts
/// behind each open block.
#[derive(Drop)]
pub struct Knowing {
    facts: Facts,
    operands: KnownCopies,
    saved: Vec<Facts>,
}

impl Model for Knowing {
    ghost use Rattle.std.specs.Prelude.{reverse};
    ghost use Rattle.operand_spill.specs.inner.Exposing.{Here, here, copies};

    ghost Value = { Here };

    ghost view = { λ s. here s.facts (copies s.operands) (reverse s.saved.items) };
}

impl Knowing {
    /// Before the first instruction of a body.
    fn new(alloc: Global, source: &ModuleParts) -> Result<Self, NoMemory>
        ensures { IfOk result (λ knowing. knowing
            ≡ here (first_facts source.now.memories) no_copies []) }
    {
        let facts = Facts::first(alloc, source)?;
        Ok(Knowing {
            facts,
            operands: KnownCopies::none(),
            saved: Vec::new(alloc),
        })
    }

    // Whether an instruction needs a guard.
    fn exposes(&self, instruction: Basic) -> bool
        ensures { result ≡ is_exposed self.now (Plain instruction) }
    {
        can_trap(&instruction) && !self.facts.answer(shown(instruction, self.operands))
    }

    // No topmost operand is known to be a copy.
    fn forget(&mut self)
        ensures { self.new ≡ here self.old.facts no_copies self.old.saved }
    {
        self.operands = KnownCopies::none();
    }

    // What the topmost operands are behind an instruction.
    fn copy_behind(&mut self, instruction: Basic)
        ensures { self.new ≡ here self.old.facts (copies_behind instruction self.old.copies)
            self.old.saved }
    {
        self.operands = self.operands.behind(instruction);
    }

    // The facts behind an instruction.
    fn learn(&mut self, instruction: Basic) -> Result<(), NoMemory>
        ensures { OnOk result (self.new ≡ here
            (facts_behind instruction self.old.copies self.old.facts) self.old.copies
            self.old.saved) }
    {
        self.facts.note(shown(instruction, self.operands))?;
        self.facts.free(local_written(instruction))
    }

    // A basic instruction.
    fn perform(&mut self, instruction: Basic) -> Result<(), NoMemory>
        ensures { OnOk result (self.new ≡ here
            (facts_behind instruction self.old.copies self.old.facts)
            (copies_behind instruction self.old.copies) self.old.saved) }
    {
        self.learn(instruction)?;
        self.copy_behind(instruction);
        Ok(())
    }

    // The beginning of a block: what holds in front of it does.
    fn enter(&mut self, marks: &BTreeSet<u32>) -> Result<(), NoMemory>
        ensures { OnOk result (self.new ≡ entered (held marks.now) self.old) }
    {
        let kept = self.facts.unmarked(marks)?;
        self.saved.push(kept)?;
        self.forget();
        Ok(())
    }

    // The beginning of a loop, to which the code comes back.
    fn begin(&mut self, marks: &BTreeSet<u32>) -> Result<(), NoMemory>
        ensures { OnOk result (self.new ≡ begun (held marks.now) self.old) }
    {
        let kept = self.facts.unmarked(marks)?;
        self.facts = kept.copy()?;
        self.saved.push(kept)?;
        self.forget();
        Ok(())
    }

    // `else`.
    fn alternate(&mut self) -> Result<(), NoMemory>
        ensures { OnOk result (self.new
            ≡ here (latest self.old.saved) no_copies self.old.saved) }
    {
        match self.saved.as_slice().last() {
            Some(kept) => self.facts = kept.copy()?,
            None => self.facts = self.facts.none(),
        }
        self.forget();
        Ok(())
    }

    // `end`.
    fn leave(&mut self)
        ensures { self.new ≡ here (latest self.old.saved) no_copies (older self.old.saved) }
    {
        match self.saved.pop() {
            Some(kept) => self.facts = kept,
            None => self.facts = self.facts.none(),
        }
        self.forget();
    }

    // Any instruction.
    fn pass(&mut self, marks: &BTreeSet<u32>, code: Instr) -> Result<(), NoMemory>
        ensures { (targets : List ℕ) → OnOk result
            (self.new ≡ passed (held marks.now) self.old (item_of targets code)) }
    {
        match code {
            Instr::Basic(instruction) => self.perform(instruction),
            Instr::Block(_) => self.enter(marks),
            Instr::Loop(_) => self.begin(marks),
            Instr::If(_) => self.enter(marks),
            Instr::Else => self.alternate(),
            Instr::Jump(_) => {
                self.forget();
                Ok(())
            }
            Instr::End => {
                self.leave();
                Ok(())
            }
        }
    }

    // Whether any instruction needs a guard.
    fn exposes_at(&self, code: Instr) -> bool
        ensures { (targets : List ℕ) → result ≡ is_exposed self.now (item_of targets code) }
    {
        match code {
            Instr::Basic(instruction) => self.exposes(instruction),
            _ => false,
        }
    }
}

/// The offset of an instruction that needs a guard.
fn note(found: &mut Offsets, knowing: &Knowing, op: Op) -> Result<(), NoMemory>
    ensures { (targets : List ℕ) → OnOk result (found.new
        ≡ one_more (is_exposed knowing.now (item_of targets op.code)) op.at found.old) }
{
    if knowing.exposes_at(op.code) {
        found.note(op.at)?;
    }
    Ok(())
}

/// Notes the offsets of the instructions of a body that need a guard, where blocks write these locals.
fn note_all(
    found: &mut Offsets,
    knowing: &mut Knowing,
    marks: &BTreeSet<u32>,
    ops: &[Op],
) -> Result<(), NoMemory>
    ensures { (targets : List ℕ) → OnOk result (found.new
        ≡ exposed_along (held marks.now) knowing.old (code_of targets ops.now) found.old) }
{
    let mut pc = 0;
    while pc < ops.len() {
        let op = read_op(ops, pc);
        note(found, knowing, op)?;
        knowing.pass(marks, op.code)?;
        pc += 1;
    }
    Ok(())
}

/// The offsets of the instructions of a body in this module that need a guard.
pub fn exposed(alloc: Global, source: &ModuleParts, ops: &[Op]) -> Result<Offsets, NoMemory>
    ensures { (targets : List ℕ) (tree : Tree) → Writes targets ops.now tree
        → IfOk result (λ found. found ≡ exposed_in source.now.memories tree.nodes) }
{
    let marks = written_in_blocks(alloc, ops)?;
    let mut found = Offsets::new(alloc);
    let mut knowing = Knowing::new(alloc, source)?;
    note_all(&mut found, &mut knowing, &marks, ops)?;
    Ok(found)
}

//! Which locals of a body are worked out of two others where its frame is left: what an instruction
//! gives on the values of two locals, where all three are written at one place each, in one run of
//! instructions in which the frame can't be left.

ghost use Rattle.std.specs.Prelude.{◌≡◌, ◌≤◌, ℕ, List, map, length, nat_lt, option_map, false};
ghost use Rattle.std.specs.Prelude.{Some, IfOk, OnOk};
ghost use Rattle.wasm_syntax.specs.Module.{type_at};
ghost use Rattle.wasm_syntax.specs.declared.instruction.Basic.TheVariants.{LocalSet as LocalSetOf};
ghost use Rattle.wasm_syntax.specs.Tree.{Tree, Writes, Plain, item_of};
ghost use Rattle.rewrite_bodies.specs.calls.Slots.{local_written};
ghost use Rattle.rewrite_bodies.specs.calls.Derived.{has_type, can_leave, count_of, derived_in};
ghost use Rattle.rewrite_bodies.specs.calls.Derived.{one_found};
ghost use Rattle.rewrite_code.specs.calls.KeptDerivations.{derivation};
ghost use Rattle.operand_spill.specs.inner.Exposing.{held};
ghost use Rattle.operand_spill.specs.inner.Deriving.{seen, may, makes, takes, fits_since};
ghost use Rattle.operand_spill.specs.inner.Deriving.{trail, known, nothing, none_where};
ghost use Rattle.operand_spill.specs.inner.Deriving.{with_local, performed, passed};
ghost use Rattle.operand_spill.specs.inner.Deriving.{found_if, found_by, where_room, listed};

use crate::exposing::local_written;
use crate::times::{is_once, times_written};
use crate::trail::{KeptTrail, given_type, taken_type};
use causes::NoMemory;
use pm_text::Items;
use rewrite_code::{Derivation, Offsets, can_trap};
use std::alloc::Global;
use std::collections::{BTreeMap, BTreeSet};
use wasm_syntax::{Basic, Instr, ModuleParts, Op, ValType, read_op};

// ---- what is known along a body

/// The locals that were written since the frame could be left, or control moved, and what the topmost
/// operands are.
#[derive(Drop)]
pub struct Recent {
    written: BTreeSet<u32>,
    trail: KeptTrail,
}

/// A local more.
fn add_local(written: &mut BTreeSet<u32>, local: u32) -> Result<(), NoMemory>
    ensures { OnOk result (held written.new ≡ with_local (Some local) (held written.old)) }
{
    written.insert(local)?;
    Ok(())
}

/// The local that an instruction writes.
fn add_written(written: &mut BTreeSet<u32>, instruction: Basic) -> Result<(), NoMemory>
    ensures { OnOk result (held written.new
        ≡ with_local (local_written instruction) (held written.old)) }
{
    match local_written(instruction) {
        Some(local) => add_local(written, local),
        None => Ok(()),
    }
}

/// No local is left.
fn empty(written: &mut BTreeSet<u32>)
    ensures { held written.new ≡ (λ x. false) }
{
    written.clear();
}

/// Where this holds, no local is left.
fn empty_if(written: &mut BTreeSet<u32>, holds: bool)
    ensures { held written.new ≡ none_where holds (held written.old) }
{
    if holds {
        empty(written);
    }
}

/// Whether the frame can be left at an instruction at this offset.
fn can_leave(exposed: &Offsets, at: u32, instruction: Basic) -> bool
    ensures { result ≡ can_leave exposed.now at instruction }
{
    can_trap(&instruction) && exposed.contains(at)
}

impl Recent {
    /// Before the first instruction of a body.
    fn new(alloc: Global) -> Self
        ensures { known result ≡ nothing }
    {
        Recent {
            written: BTreeSet::new(alloc),
            trail: KeptTrail::Nowhere,
        }
    }

    // Where control moves.
    fn forget(&mut self)
        ensures { known self.new ≡ nothing }
    {
        empty(&mut self.written);
        self.trail = KeptTrail::Nowhere;
    }

    // A basic instruction.
    fn perform(&mut self, exposed: &Offsets, at: u32, instruction: Basic) -> Result<(), NoMemory>
        ensures { OnOk result (known self.new
            ≡ performed exposed.now (known self.old) at instruction) }
    {
        empty_if(&mut self.written, can_leave(exposed, at, instruction));
        add_written(&mut self.written, instruction)?;
        self.trail = self.trail.behind(instruction);
        Ok(())
    }

    // Any instruction.
    fn pass(&mut self, exposed: &Offsets, op: Op) -> Result<(), NoMemory>
        ensures { (targets : List ℕ) → OnOk result (known self.new
            ≡ passed exposed.now (known self.old) op.at (item_of targets op.code)) }
    {
        match op.code {
            Instr::Basic(instruction) => self.perform(exposed, op.at, instruction),
            _ => {
                self.forget();
                Ok(())
            }
        }
    }
}

// ---- what is found

/// Whether a local has this type.
#[tactic(auto, using(crate::proofs::Derivings::type_there, crate::proofs::Derivings::type_past))]
fn has_type(locals: &[ValType], local: u32, t: ValType) -> bool
    ensures { result ≡ has_type locals.now local t }
{
    match locals.get(local as usize) {
        Some(found) => found.is_same(t),
        None => false,
    }
}

/// The number of parameters, the types of all locals, and whether each one that is written is so at
/// more than one place.
#[derive(Drop)]
pub struct Candidates<'l> {
    parameters: usize,
    locals: &'l [ValType],
    times: BTreeMap<u32, bool>,
}

impl<'l> Candidates<'l> {
    // Whether a local of this type, which is no parameter, is written at one place.
    fn may(&self, local: u32, t: ValType) -> bool
        ensures { result ≡ may (seen self.now) local t }
    {
        self.parameters <= local as usize
            && (has_type(self.locals, local, t) && is_once(&self.times, local))
    }

    // Whether a derivation may make its local.
    fn makes(&self, found: Derivation) -> bool
        ensures { result ≡ makes (seen self.now) (derivation found) }
    {
        self.may(found.made, given_type(found.instruction))
            && (found.left != found.made && found.right != found.made)
    }

    // Whether it may take a local.
    fn takes(&self, written: &BTreeSet<u32>, local: u32, t: ValType) -> bool
        ensures { result ≡ takes (seen self.now) (held written.now) local t }
    {
        self.may(local, t) && written.contains(&local)
    }

    // Whether it is one of the function's.
    fn fits(&self, written: &BTreeSet<u32>, found: Derivation) -> bool
        ensures { result ≡ fits_since (seen self.now) (held written.now) (derivation found) }
    {
        let taken = taken_type(found.instruction);
        self.makes(found)
            && (self.takes(written, found.left, taken) && self.takes(written, found.right, taken))
    }

    // That one, if it is.
    fn fitting(&self, written: &BTreeSet<u32>, found: Derivation) -> Option<Derivation>
        ensures { listed (option_map derivation result)
            ≡ one_found (fits_since (seen self.now) (held written.now) (derivation found))
            (derivation found) }
    {
        if self.fits(written, found) {
            Some(found)
        } else {
            None
        }
    }

    // What an instruction makes that writes a local.
    fn made_by(&self, recent: &Recent, local: u32) -> Option<Derivation>
        ensures { listed (option_map derivation result)
            ≡ found_if (fits_since (seen self.now) (held recent.now.written))
            (trail recent.now.trail) (LocalSetOf local) }
    {
        match recent.trail {
            KeptTrail::Worked(instruction, left, right) => self.fitting(
                &recent.written,
                Derivation {
                    made: local,
                    instruction,
                    left,
                    right,
                },
            ),
            KeptTrail::Nowhere | KeptTrail::One(_) | KeptTrail::Two(_, _) => None,
        }
    }

    // What a basic instruction makes.
    fn found_at(&self, recent: &Recent, instruction: Basic) -> Option<Derivation>
        ensures { listed (option_map derivation result)
            ≡ found_by (seen self.now) (known recent.now) (Plain instruction) }
    {
        match instruction {
            Basic::LocalSet(local) => self.made_by(recent, local),
            _ => None,
        }
    }

    // What any instruction makes.
    fn found(&self, recent: &Recent, code: Instr) -> Option<Derivation>
        ensures { (targets : List ℕ) → listed (option_map derivation result)
            ≡ found_by (seen self.now) (known recent.now) (item_of targets code) }
    {
        match code {
            Instr::Basic(instruction) => self.found_at(recent, instruction),
            _ => None,
        }
    }
}

/// One more, where there are fewer than so many.
fn keep_one(kept: &mut Items<Derivation>, most: usize, found: Derivation) -> Result<(), NoMemory>
    ensures list { OnOk result (map derivation kept.new
        ≡ where_room (nat_lt (length kept.old) most) (map derivation kept.old)
        (Some (derivation found))) }
    ensures few { length kept.old ≤ most → OnOk result (length kept.new ≤ most) }
{
    if kept.len() < most {
        kept.push(found)?;
    }
    Ok(())
}

/// The same of one that may be there.
fn keep(
    kept: &mut Items<Derivation>,
    most: usize,
    found: Option<Derivation>,
) -> Result<(), NoMemory>
    ensures list { OnOk result (map derivation kept.new
        ≡ where_room (nat_lt (length kept.old) most) (map derivation kept.old)
        (option_map derivation found)) }
    ensures few { length kept.old ≤ most → OnOk result (length kept.new ≤ most) }
{
    match found {
        Some(one) => keep_one(kept, most, one),
        None => Ok(()),
    }
}

/// How many parameters a function has.
fn parameter_count(source: &ModuleParts, func: u32) -> usize
    ensures { result ≡ count_of (type_at source.now func) }
{
    match source.type_of(func as usize) {
        Some(ftype) => ftype.params.len(),
        None => 0,
    }
}

/// The locals of a function of this module that are worked out of two others where it is left, the
/// first one first: no more than a third of its locals, whose types are these, parameters among them.
/// They are those of the definitions, where the frame can be left at these offsets.
pub fn derivations(
    alloc: Global,
    source: &ModuleParts,
    func: u32,
    locals: &[ValType],
    ops: &[Op],
    exposed: &Offsets,
) -> Result<Items<Derivation>, NoMemory>
    ensures { (targets : List ℕ) (tree : Tree) → Writes targets ops.now tree
        → IfOk result (λ found. map derivation found ≡ derived_in
        (count_of (type_at source.now func)) locals.now exposed.now tree.nodes) }
{
    let times = times_written(alloc, ops)?;
    let candidates = Candidates {
        parameters: parameter_count(source, func),
        locals,
        times,
    };
    let mut kept = Items::new(alloc);
    let mut recent = Recent::new(alloc);
    let mut pc = 0;
    while pc < ops.len() {
        let op = read_op(ops, pc);
        keep(
            &mut kept,
            locals.len() / 3,
            candidates.found(&recent, op.code),
        )?;
        recent.pass(exposed, op)?;
        pc += 1;
    }
    Ok(kept)
}

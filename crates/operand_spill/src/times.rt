//! How often a body writes each local.

ghost use Rattle.std.specs.Prelude.{◌≡◌, ◌==◌, ℕ, List, IfOk, OnOk};
ghost use Rattle.wasm_syntax.specs.Tree.{Tree, Writes, item_of};
ghost use Rattle.rewrite_bodies.specs.calls.Slots.{local_written};
ghost use Rattle.rewrite_bodies.specs.calls.Facts.{is_local};
ghost use Rattle.rewrite_bodies.specs.calls.Derived.{places};
ghost use Rattle.operand_spill.specs.inner.Deriving.{often, more_often, is_once, at_places};
ghost use Rattle.operand_spill.specs.inner.Deriving.{written_by};

use crate::exposing::local_written;
use causes::NoMemory;
use std::alloc::Global;
use std::collections::BTreeMap;
use wasm_syntax::{Basic, Instr, Op, read_op};

/// A local is written at one place more.
fn count(times: &mut BTreeMap<u32, bool>, local: u32) -> Result<(), NoMemory>
    ensures { OnOk result ((x : ℕ)
        → often times.new x ≡ more_often (local == x) (often times.old x)) }
{
    let again = times.contains_key(&local);
    times.insert(local, again)?;
    Ok(())
}

/// The local that an instruction writes.
fn count_written(times: &mut BTreeMap<u32, bool>, instruction: Basic) -> Result<(), NoMemory>
    ensures { OnOk result ((x : ℕ) → often times.new x
        ≡ more_often (is_local (local_written instruction) x) (often times.old x)) }
{
    match local_written(instruction) {
        Some(local) => count(times, local),
        None => Ok(()),
    }
}

/// The same of any instruction.
fn count_at(times: &mut BTreeMap<u32, bool>, code: Instr) -> Result<(), NoMemory>
    ensures { (targets : List ℕ) → OnOk result ((x : ℕ) → often times.new x
        ≡ more_often (is_local (written_by (item_of targets code)) x) (often times.old x)) }
{
    match code {
        Instr::Basic(instruction) => count_written(times, instruction),
        _ => Ok(()),
    }
}

/// For each local that a body writes, whether it does so at more than one place.
pub fn times_written(alloc: Global, ops: &[Op]) -> Result<BTreeMap<u32, bool>, NoMemory>
    ensures { (targets : List ℕ) (tree : Tree) → Writes targets ops.now tree
        → IfOk result (λ times. (x : ℕ) → often times x ≡ at_places (places tree.nodes x)) }
{
    let mut times = BTreeMap::new(alloc);
    let mut pc = 0;
    while pc < ops.len() {
        let op = read_op(ops, pc);
        count_at(&mut times, op.code)?;
        pc += 1;
    }
    Ok(times)
}

/// Whether a local is written at one place.
pub fn is_once(times: &BTreeMap<u32, bool>, local: u32) -> bool
    ensures { result ≡ is_once (often times.now local) }
{
    match times.get(&local) {
        Some(again) => !*again,
        None => false,
    }
}

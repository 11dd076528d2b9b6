//! The addresses at which steps were made.

ghost use Rattle.std.specs.Prelude.{◌≡◌, ◌+◌, ◌%◌, ◌^◌, [], OnOk, IfOk, slice_index_or};
ghost use Rattle.line_coverage.specs.inner.Sums.{Adds};
ghost use Rattle.line_coverage.specs.inner.Visits.{op_sum, ops_sum, bodies_sum};

use crate::sums::add_visit;
use causes::NoMemory;
use machine_steps::Tally;
use std::alloc::Global;
use std::collections::BTreeMap;
use wasm_syntax::{Body, ModuleParts, Op};

/// The count of an instruction.
fn cell(cells: &[u64], index: usize) -> u64
    ensures { result ≡ slice_index_or cells.now index 0 }
{
    match cells.get(index) {
        Some(steps) => *steps,
        None => 0,
    }
}

/// So many more steps at the address of an instruction, if any.
fn add_op(visits: &mut BTreeMap<u32, u64>, start: u32, op: &Op, steps: u64) -> Result<(), NoMemory>
    ensures { OnOk result (Adds visits.old.entries visits.new.entries
        (op_sum ((start + op.now.at) % 2 ^ 32) steps)) }
{
    if steps > 0 {
        add_visit(visits, start.wrapping_add(op.at), steps)?;
    }
    Ok(())
}

/// The steps at the instructions of a function.
fn add_body(visits: &mut BTreeMap<u32, u64>, body: &Body, cells: &[u64]) -> Result<(), NoMemory>
    ensures { OnOk result (Adds visits.old.entries visits.new.entries
        (ops_sum body.now.start body.now.ops cells.now)) }
{
    let ops = body.ops.as_slice();
    'ops: for (index, op) in ops.iter().enumerate() {
        let steps = cell(cells, index);
        add_op(visits, body.start, op, steps)?;
    }
    Ok(())
}

/// The steps at the instructions of all functions of a module, by the instructions' addresses.
pub fn visits_of(
    alloc: Global,
    source: &ModuleParts,
    tally: &Tally,
) -> Result<BTreeMap<u32, u64>, NoMemory>
    ensures { IfOk result (λ visits. Adds [] visits.entries
        (bodies_sum source.now.bodies tally.now.cells)) }
{
    let bodies = source.bodies.as_slice();
    let mut visits = BTreeMap::new(alloc);
    'bodies: for (function, body) in bodies.iter().enumerate() {
        add_body(&mut visits, body, tally.of_function(function))?;
    }
    Ok(visits)
}

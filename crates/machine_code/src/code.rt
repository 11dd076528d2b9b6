//! A function's code.

ghost use Rattle.std.specs.Prelude.{◌≡◌, slice_get, take, drop, IfOk};
ghost use Rattle.wasm_syntax.specs.Tree.{Tree as CodeTree, Writes};
ghost use Rattle.machine_code.specs.calls.Code.{FitsCode, gives_one};
ghost use Rattle.wasm_syntax.specs.Machine.{first, pick};

use crate::sides::{Side, side_table};
use causes::NoMemory;
use pm_text::Items;
use std::alloc::Global;
use wasm_syntax::{Body, FuncType, Op, ValTypes};

/// A defined function, prepared for running.
#[derive(Drop)]
pub struct Code<'a> {
    pub body: &'a Body,
    /// One entry an instruction.
    pub sides: Items<Side>,
    /// The number of its parameters.
    pub params: usize,
    /// Whether it has a result.
    pub gives: bool,
}

fn has_first(results: &ValTypes) -> bool
    ensures { result ≡ gives_one (first results.now) }
{
    results.get(0).is_some()
}

impl<'a> Code<'a> {
    /// The function with this body and this type.
    pub fn prepare(alloc: Global, body: &'a Body, ftype: &FuncType) -> Result<Code<'a>, NoMemory>
        ensures { (tree : CodeTree) → Writes body.now.targets body.now.ops tree
            → IfOk result (λ code. (code.body.now ≡ body.now) × FitsCode tree ftype.now code) }
    {
        let sides = side_table(alloc, body.ops.as_slice())?;
        Ok(Code {
            body,
            sides,
            params: ftype.params.len(),
            gives: has_first(&ftype.results),
        })
    }

    /// The instruction at an index, or None past the end.
    pub fn op(&self, index: usize) -> Option<Op>
        ensures { result ≡ slice_get self.now.body.now.ops index }
    {
        self.body.ops.get(index).copied()
    }

    /// The table's entry for the instruction at an index, or None past the end.
    pub fn side(&self, index: usize) -> Option<Side>
        ensures { result ≡ slice_get self.now.sides index }
    {
        self.sides.get(index).copied()
    }

    /// The label to which a `br_table` goes with an operand (Core 4.4.5).
    #[tactic(auto, using(crate::proofs::Targets::past))]
    pub fn target(&self, start: u32, count: u32, default: u32, operand: u32) -> u32
        ensures { result ≡ pick (take count (drop start self.now.body.now.targets)) default
            operand }
    {
        if operand < count {
            let index = start as usize + operand as usize;
            match self.body.targets.get(index).copied() {
                Some(label) => label,
                None => default,
            }
        } else {
            default
        }
    }
}

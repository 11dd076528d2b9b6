//! What the last instructions did with the values of locals.

ghost use Rattle.std.specs.Prelude.{◌≡◌};
ghost use Rattle.rewrite_bodies.specs.calls.Derived.{Nowhere, One, Two, worked_if, trail_behind};
ghost use Rattle.rewrite_bodies.specs.calls.Derived.{mild, strict, derives, taken_type};
ghost use Rattle.rewrite_bodies.specs.calls.Derived.{given_type};
ghost use Rattle.operand_spill.specs.inner.Deriving.{trail};

use wasm_syntax::{Basic, Binary, Compare, ValType};

// ---- instructions

/// Whether an operator can't trap, and gives 0 on zeros.
fn is_mild(operator: Binary) -> bool
    ensures { result ≡ mild operator }
{
    matches!(
        operator,
        Binary::Add
            | Binary::Sub
            | Binary::Mul
            | Binary::And
            | Binary::Or
            | Binary::Xor
            | Binary::Shl
            | Binary::ShrS
            | Binary::ShrU
    )
}

/// Whether a comparison gives 0 on zeros.
fn is_strict(operator: Compare) -> bool
    ensures { result ≡ strict operator }
{
    matches!(
        operator,
        Compare::Ne | Compare::LtS | Compare::LtU | Compare::GtS | Compare::GtU
    )
}

fn derives(instruction: Basic) -> bool
    ensures { result ≡ derives instruction }
{
    match instruction {
        Basic::Compare(_, operator) => is_strict(operator),
        Basic::Binary(_, operator) => is_mild(operator),
        _ => false,
    }
}

/// The type of both operands of an instruction that derives.
pub fn taken_type(instruction: Basic) -> ValType
    ensures { result ≡ taken_type instruction }
{
    match instruction {
        Basic::Compare(t, _) | Basic::Binary(t, _) => t,
        _ => ValType::I32,
    }
}

/// The type of what it gives.
pub fn given_type(instruction: Basic) -> ValType
    ensures { result ≡ given_type instruction }
{
    match instruction {
        Basic::Binary(t, _) => t,
        _ => ValType::I32,
    }
}

// ---- operands

/// What the topmost operands are: nothing is known of them, the topmost one is the value of a local,
/// the two topmost ones are (the first below), or the topmost one is what an instruction gave on the
/// values of two locals.
#[derive(Clone, Copy)]
pub enum KeptTrail {
    Nowhere,
    One(u32),
    Two(u32, u32),
    Worked(Basic, u32, u32),
}

/// Behind an instruction on the values of two locals, which may be one that derives.
fn worked_if(holds: bool, instruction: Basic, left: u32, right: u32) -> KeptTrail
    ensures { trail result ≡ worked_if holds instruction left right }
{
    if holds {
        KeptTrail::Worked(instruction, left, right)
    } else {
        KeptTrail::Nowhere
    }
}

/// Behind an instruction, where nothing is known of the operands.
fn behind_none(instruction: Basic) -> KeptTrail
    ensures { trail result ≡ trail_behind Nowhere instruction }
{
    match instruction {
        Basic::LocalGet(local) => KeptTrail::One(local),
        _ => KeptTrail::Nowhere,
    }
}

/// Where the topmost one is the value of a local.
fn behind_one(top: u32, instruction: Basic) -> KeptTrail
    ensures { trail result ≡ trail_behind (One top) instruction }
{
    match instruction {
        Basic::LocalGet(local) => KeptTrail::Two(top, local),
        _ => KeptTrail::Nowhere,
    }
}

/// Where the two topmost ones are the values of locals.
fn behind_two(below: u32, top: u32, instruction: Basic) -> KeptTrail
    ensures { trail result ≡ trail_behind (Two below top) instruction }
{
    match instruction {
        Basic::LocalGet(local) => KeptTrail::Two(top, local),
        _ => worked_if(derives(instruction), instruction, below, top),
    }
}

impl KeptTrail {
    /// Behind an instruction.
    pub fn behind(self, instruction: Basic) -> KeptTrail
        ensures { trail result ≡ trail_behind (trail self) instruction }
    {
        match self {
            KeptTrail::One(top) => behind_one(top, instruction),
            KeptTrail::Two(below, top) => behind_two(below, top, instruction),
            KeptTrail::Nowhere | KeptTrail::Worked(_, _, _) => behind_none(instruction),
        }
    }
}

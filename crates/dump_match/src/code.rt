//! The code of the functions that a module defines.

ghost use Rattle.std.specs.Prelude.{◌≡◌, ◌<◌, ◌^◌, ℕ, List, slice_get};
ghost use Rattle.wasm_syntax.specs.Sizes.{parameter_count, WithinLimits};
ghost use Rattle.wasm_syntax.specs.Module.{type_at};
ghost use Rattle.wasm_syntax.specs.Tree.{item_of};
ghost use Rattle.wasm_validate.specs.Heights.{HasOp};
ghost use Rattle.dump_match.specs.Frames.{is_call as is_call_there, taken as taken_there, can_call as can_call_there};
ghost use Rattle.dump_match.specs.Frames.{same_signature as signatures_agree};
ghost use Rattle.dump_match.specs.inner.Stands.{CodeIs};

use wasm_syntax::{Instr, Jump, ModuleParts};

/// The instruction of a function at a number.
pub fn code_at(m: &ModuleParts, function: u32, n: u32) -> Option<Instr>
    ensures { CodeIs result m.now function n }
{
    match m.body_of(function) {
        Some(body) => match body.ops.get(n as usize).copied() {
            Some(op) => Some(op.code),
            None => None,
        },
        None => None,
    }
}

pub fn is_call(code: Instr) -> bool
    ensures { (targets : List ℕ) → result ≡ is_call_there (item_of targets code) }
{
    match code {
        Instr::Jump(Jump::Call(_)) => true,
        Instr::Jump(Jump::CallIndirect(_)) => true,
        _ => false,
    }
}

/// How many parameters a type has, if there is one.
fn parameters_at(m: &ModuleParts, t: u32) -> usize
    requires { WithinLimits m.now }
    ensures value { result ≡ parameter_count (slice_get m.now.types t) }
    ensures few { result < 2 ^ 32 }
{
    match m.types.get(t as usize) {
        Some(ftype) => ftype.params.len(),
        None => 0,
    }
}

/// How many operands an instruction takes, if it is a call.
pub fn taken(m: &ModuleParts, code: Instr) -> usize
    requires { WithinLimits m.now }
    ensures { (targets : List ℕ) → result ≡ taken_there m.now (item_of targets code) }
{
    match code {
        Instr::Jump(Jump::Call(g)) => m.parameters(g),
        Instr::Jump(Jump::CallIndirect(t)) => parameters_at(m, t) + 1,
        _ => 0,
    }
}

/// Whether a function has a type, by structure.
fn is_of_type(m: &ModuleParts, t: u32, function: u32) -> bool
    ensures { result ≡ signatures_agree (slice_get m.now.types t) (type_at m.now function) }
{
    match (m.types.get(t as usize), m.type_of(function as usize)) {
        (Some(a), Some(b)) => a.is_same(b),
        _ => false,
    }
}

/// Whether an instruction is a call that can have called a function.
pub fn can_call(m: &ModuleParts, code: Instr, callee: u32) -> bool
    ensures { (targets : List ℕ) → result ≡ can_call_there m.now (item_of targets code) callee }
{
    match code {
        Instr::Jump(Jump::Call(g)) => g == callee,
        Instr::Jump(Jump::CallIndirect(t)) => is_of_type(m, t, callee),
        _ => false,
    }
}

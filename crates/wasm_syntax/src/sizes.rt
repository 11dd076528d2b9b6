//! What is counted of functions.

ghost use Rattle.std.specs.Prelude.{◌≡◌, ◌+◌, ◌<◌, ◌^◌, map, max, sum};
ghost use Rattle.std.specs.Option.{option_copied};
ghost use Rattle.wasm_syntax.specs.Module.{type_at};
ghost use Rattle.wasm_syntax.specs.Sizes.{deepest, depth_behind, local_count, nesting, parameter_count};

use crate::instruction::{Instr, Op};
use crate::module::ModuleParts;
use crate::parts::{Body, FuncType, LocalGroup};

/// The parameters of a function of this type; none where the type is out of range.
fn parameters_of(ftype: Option<&FuncType>) -> usize
    ensures { result ≡ parameter_count (option_copied ftype.entry) }
{
    match ftype {
        Some(ftype) => ftype.params.len(),
        None => 0,
    }
}

/// How many locals these groups are.
fn sum_of(groups: &[LocalGroup]) -> u64
    requires { sum (map (λ g. g.count) groups.now) < 2 ^ 32 }
    ensures { result ≡ sum (map (λ g. g.count) groups.now) }
{
    let mut sum = 0;
    for group in groups {
        sum += u64::from(group.count);
    }
    sum
}

/// The greater of two counts.
pub fn greater(a: u64, b: u64) -> u64
    ensures { result ≡ max a b }
{
    if a < b { b } else { a }
}

/// The blocks that are open behind an instruction, where so many are open before it.
fn depth_behind(depth: u64, code: &Instr) -> u64
    requires { depth + 1 < 2 ^ 64 }
    ensures { result ≡ depth_behind depth code.now }
{
    match code {
        Instr::Basic(_) | Instr::Jump(_) | Instr::Else => depth,
        Instr::Block(_) | Instr::Loop(_) | Instr::If(_) => depth + 1,
        Instr::End => depth.saturating_sub(1),
    }
}

fn most_open(ops: &[Op]) -> u64
    ensures { result ≡ deepest 0 (map (λ o. o.code) ops.now) }
{
    let mut depth = 0;
    let mut most = 0;
    for op in ops {
        depth = depth_behind(depth, &op.code);
        most = greater(most, depth);
    }
    most
}

impl Body {
    /// The most blocks, loops and ifs that are open at once.
    pub fn nesting(&self) -> u64
        ensures { result ≡ nesting self.now }
    {
        most_open(self.ops.as_slice())
    }

    /// How many locals the body declares (Core 5.5.13).
    pub fn declared(&self) -> u64
        requires { sum (map (λ g. g.count) self.now.groups) < 2 ^ 32 }
        ensures { result ≡ sum (map (λ g. g.count) self.now.groups) }
    {
        sum_of(self.groups.as_slice())
    }

    /// The locals of a function of this type with this body, with its parameters.
    pub fn locals(&self, ftype: Option<&FuncType>) -> u64
        requires { local_count (option_copied ftype) self.now < 2 ^ 32 }
        ensures { result ≡ local_count (option_copied ftype.entry) self.now }
    {
        parameters_of(ftype) as u64 + sum_of(self.groups.as_slice())
    }
}

impl ModuleParts {
    /// The parameters of a function; none where there is no such function, or where its type index
    /// is out of range.
    pub fn parameters(&self, function: u32) -> usize
        ensures { result ≡ parameter_count (type_at self.now function) }
    {
        parameters_of(self.type_of(function as usize))
    }
}

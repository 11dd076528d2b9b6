//! The types of a function's locals, without a copy of them.

ghost use Rattle.std.specs.Prelude.{◌≡◌, ◌<◌, ◌^◌, ◌++◌, length, slice_get, option_map, IfOk};
ghost use Rattle.wasm_syntax.specs.Module.{declared_locals};
ghost use Rattle.validate_body.specs.inner.Locals.{ends as ends_of_groups, Splits};

use causes::NoMemory;
use std::alloc::Global;
use std::marker::Model;
use wasm_syntax::{LocalGroup, ValType};

/// The types of parameters and of groups of locals, which contracts see as one list. A group is
/// found by the number of locals up to and with each.
#[derive(Drop)]
pub struct Locals<'a> {
    params: &'a [ValType],
    groups: &'a [LocalGroup],
    ends: Vec<u32>,
}

impl<'a> Model for Locals<'a> {
    ghost use Rattle.std.specs.Prelude.{List, ◌≡◌, ◌++◌};
    ghost use Rattle.wasm_syntax.specs.declared.value.ValType.{ValType as Sort};
    ghost use Rattle.wasm_syntax.specs.Module.{declared_locals as declared};
    ghost use Rattle.validate_body.specs.inner.Locals.{ends as ends_from};

    ghost Value = { List Sort };

    ghost view = { λ s. s.params.now ++ declared s.groups.now };

    ghost invariant = { λ s. s.ends.items ≡ ends_from 0 s.groups.now };
}

/// The number of locals up to and with each group.
fn ends_of(alloc: Global, groups: &[LocalGroup]) -> Result<Vec<u32>, NoMemory>
    requires few { length (declared_locals groups.now) < 2 ^ 32 }
    ensures { IfOk result (λ v. v.items ≡ ends_of_groups 0 groups.now) }
{
    let mut ends = Vec::new(alloc);
    let mut end = 0;
    let mut i = 0;
    while i < groups.len() {
        end += groups[i].count;
        ends.push(end)?;
        i += 1;
    }
    Ok(ends)
}

/// The index of the first end above a number.
fn group_of(ends: &[u32], n: u32) -> usize
    ensures { Splits ends.now n result }
{
    let mut low = 0;
    let mut high = ends.len();
    while low < high {
        let middle = low + (high - low) / 2;
        if ends[middle] <= n {
            low = middle + 1;
        } else {
            high = middle;
        }
    }
    low
}

/// The type of the locals of a group.
fn type_of_group(groups: &[LocalGroup], at: usize) -> Option<ValType>
    ensures { result ≡ option_map (λ g. g.vtype) (slice_get groups.now at) }
{
    match groups.get(at).copied() {
        Some(group) => Some(group.vtype),
        None => None,
    }
}

impl<'a> Locals<'a> {
    /// The locals of a function with these parameters and groups.
    pub fn new(
        alloc: Global,
        params: &'a [ValType],
        groups: &'a [LocalGroup],
    ) -> Result<Self, NoMemory>
        requires few { length (declared_locals groups.now) < 2 ^ 32 }
        ensures { IfOk result (λ s. s ≡ params.now ++ declared_locals groups.now) }
    {
        let ends = ends_of(alloc, groups)?;
        Ok(Locals {
            params,
            groups,
            ends,
        })
    }

    /// The type of a local, or None where there are not so many.
    pub fn get(&self, x: u32) -> Option<ValType>
        ensures { result ≡ slice_get self.now x }
    {
        let count = self.params.len();
        let index = x as usize;
        if index < count {
            return Some(self.params[index]);
        }
        let at = group_of(&self.ends, (index - count) as u32);
        type_of_group(self.groups, at)
    }
}

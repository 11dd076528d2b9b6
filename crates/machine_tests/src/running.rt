//! Invocations of new instances on recorded replies.

ghost use Rattle.std.specs.Prelude.{◌≡◌, ◌≤◌, false, length, OnErr};
ghost use Rattle.wasm_machine.specs.calls.Instances.{IsSpent};

use host_set::ScriptHosts;
use std::alloc::Global;
use wasm_machine::{End, Instance, RunEnd};
use wasm_syntax::{Import, Reply, Value};

/// A function of a module that is invoked, and its arguments.
#[derive(Clone, Copy)]
pub struct Case<'a> {
    pub module: &'a [u8],
    pub entry: &'a str,
    pub args: &'a [Value],
}

/// Invokes a function of a new instance for so many steps, with at most eight frames, on the
/// replies from a number on. It tells the number of the next reply: as an error where the steps
/// were used up.
pub fn invoke(
    alloc: Global,
    instance: &mut Instance<'_>,
    imports: &[Import],
    replies: &[Reply],
    first: u64,
    case: Case<'_>,
    fuel: u32,
) -> Result<u64, u64>
    requires imports { imports.now ≡ instance.old.module_.imports }
    requires first { first ≤ length replies.now }
    ensures spent { OnErr result (IsSpent instance.new 8 false) }
    ensures module_ { instance.new.module_ ≡ instance.old.module_ }
{
    if !instance.ready() || instance.steps() != 0 {
        return Ok(first);
    }
    let mut hosts = ScriptHosts::new(alloc, imports, replies, first);
    match instance.invoke(case.entry, case.args, 8, u64::from(fuel), &mut hosts) {
        Ok(RunEnd::FuelSpent) => Err(hosts.next()),
        _ => Ok(hosts.next()),
    }
}

/// How the invocation that an instance keeps ended.
pub fn end_of(instance: &Instance<'_>) -> Option<End> {
    match instance.last() {
        Some(last) => Some(last.end),
        None => None,
    }
}

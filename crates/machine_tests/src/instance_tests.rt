//! Invocations of new instances on recorded replies, and what the instances keep of them.

ghost use Rattle.std.specs.Prelude.{◌≡◌, ◌<◌, ◌≤◌, length};

use crate::asking::{Question, holds};
use crate::modules::{DIFFERENCE, ROUND, SETTER};
use crate::running::{Case, invoke};
use causes::NoMemory;
use pm_text::Items;
use std::alloc::Global;
use wasm_decode::decode;
use wasm_machine::{End, Instance};
use wasm_syntax::{Import, Reply, Value};
use wasm_validate::Validated;

/// What is invoked for 1,000 steps, the index of the function, the number of the first reply that
/// it is given, how it ends, and the number of the next reply.
pub type Row<'a> = (Case<'a>, u32, u64, End, u64);

/// `f` of a module with a function alone.
const ROUNDS: [Row<'static>; 2] = [
    (
        Case {
            module: &ROUND,
            entry: "f",
            args: &[Value::I32(7)],
        },
        0,
        0,
        End::FuelSpent,
        0,
    ),
    (
        Case {
            module: &ROUND,
            entry: "f",
            args: &[Value::I32(0)],
        },
        0,
        0,
        End::Finished { value: None },
        0,
    ),
];

const DIFFERING: Case<'static> = Case {
    module: &DIFFERENCE,
    entry: "f",
    args: &[],
};

/// The difference of two replies, from each of them on.
const DIFFERENCES: [Row<'static>; 4] = [
    (
        DIFFERING,
        1,
        0,
        End::Finished {
            value: Some(Value::I32(2)),
        },
        2,
    ),
    (
        DIFFERING,
        1,
        1,
        End::Finished {
            value: Some(Value::I32(0xFFFF_FFFC)),
        },
        3,
    ),
    (DIFFERING, 1, 2, End::NoReply, 3),
    (DIFFERING, 1, 3, End::NoReply, 3),
];

/// Replies with 5, 3 and 7.
fn replies(alloc: Global) -> Result<Items<Reply>, NoMemory> {
    let mut replies = Items::new(alloc);
    for value in [5, 3, 7] {
        replies.push(Reply {
            value: Some(Value::I32(value)),
            writes: Items::new(alloc),
        })?;
    }
    Ok(replies)
}

/// Whether an instance keeps that this function was invoked so, and that it ended so.
fn keeps(instance: &Instance<'_>, row: &Row<'_>) -> bool {
    match instance.last() {
        Some(last) => {
            last.entry == row.1
                && last.depth == 8
                && !last.collecting
                && last.args.as_slice() == row.0.args
                && last.end == row.3
        }
        None => false,
    }
}

/// Whether a new instance of a module comes to what a row says.
fn comes_to(alloc: Global, source: &Validated, replies: &[Reply], row: &Row<'_>) -> bool {
    if row.2 > replies.len() as u64 {
        return false;
    }
    let imports = source.module().parts().imports.as_slice();
    match Instance::new(alloc, source) {
        Ok(mut instance) => {
            let answer = invoke(alloc, &mut instance, imports, replies, row.2, row.0, 1000);
            let (Ok(next) | Err(next)) = answer;
            next == row.4 && keeps(&instance, row)
        }
        Err(_) => false,
    }
}

/// Whether a row holds of its module.
pub fn keeps_of(alloc: Global, source: &Validated, row: &Row<'_>) -> bool {
    match replies(alloc) {
        Ok(replies) => comes_to(alloc, source, replies.as_slice(), row),
        Err(_) => false,
    }
}

const SETTING: Case<'static> = Case {
    module: &SETTER,
    entry: "f",
    args: &[Value::I32(9)],
};

/// Whether this is the first global of an instance, and whether its function was begun.
fn shows(instance: &Instance<'_>, global: Value, entered: bool) -> bool
    requires { 0 < length instance.now.module_.globals }
{
    instance.global(0) == global && instance.entered() == entered
}

/// Whether the only global of a module is 5, and 9 behind an invocation.
fn is_set(alloc: Global, instance: &mut Instance<'_>, imports: &[Import]) -> bool
    requires imports { imports.now ≡ instance.old.module_.imports }
    requires global { 0 < length instance.old.module_.globals }
{
    if !shows(instance, Value::I32(5), false) {
        return false;
    }
    let _ = invoke(alloc, instance, imports, &[], 0, SETTING, 1000);
    shows(instance, Value::I32(9), true)
}

/// Whether an invocation sets the only global of [`SETTER`].
pub fn sets(alloc: Global, source: &Validated) -> bool {
    let parts = source.module().parts();
    if parts.globals.is_empty() {
        return false;
    }
    match Instance::new(alloc, source) {
        Ok(mut instance) => is_set(alloc, &mut instance, parts.imports.as_slice()),
        Err(_) => false,
    }
}

fn has_one_global(alloc: Global, bytes: &[u8]) -> bool {
    match decode(alloc, bytes) {
        Ok(module) => module.into_parts().globals.len() == 1,
        Err(_) => false,
    }
}

/// The number of the first row that does not hold, if there is one.
fn first_wrong(alloc: Global, rows: &[Row<'_>]) -> Option<usize> {
    for (i, row) in rows.iter().enumerate() {
        if !holds(alloc, row.0.module, &Question::Keeps(row)) {
            return Some(i);
        }
    }
    None
}

#[test]
fn an_instance_keeps_its_invocation(rt: HostRuntime) {
    assert_eq!(rt; first_wrong(rt.alloc(), &ROUNDS), None);
    assert_eq!(rt; first_wrong(rt.alloc(), &DIFFERENCES), None);
    assert!(rt; holds(rt.alloc(), &SETTER, &Question::Sets));
    assert!(rt; has_one_global(rt.alloc(), &SETTER));
}

//! Invocations that go on where their steps were used up, and copies of instances.

ghost use Rattle.std.specs.Prelude.{◌≡◌, false};
ghost use Rattle.wasm_machine.specs.calls.Instances.{IsSpent};

use crate::asking::{Question, holds};
use crate::modules::{DIVISION, IMPORTED, READING, STARTED};
use crate::running::{Case, end_of, invoke};
use causes::NoMemory;
use host_set::ScriptHosts;
use machine_basics::TrapKind;
use pm_text::{Bytes, Items};
use std::alloc::Global;
use wasm_machine::{End, Instance};
use wasm_syntax::{Import, Reply, Value, Write};
use wasm_validate::Validated;

/// What an instance shows: how its invocation ended, its steps, the operands of its innermost
/// frame, its global and the word at 16.
#[derive(Clone, Copy, PartialEq, Eq)]
pub struct Picture {
    end: Option<End>,
    steps: u64,
    operands: [Option<Value>; 2],
    global: Option<Value>,
    word: Option<u64>,
}

/// What is asked of a case.
#[derive(Clone, Copy)]
pub enum Asked {
    /// Whether it shows this where it is run for so many steps, and for so many more.
    Shows([u32; 2], Picture),
    /// Whether each way to run it for so many steps in two parts shows the same as in one.
    Agrees(u32),
    /// Whether a copy that is made between these two parts stays there, and the original goes on.
    Stays([u32; 2]),
}

/// A case, and what is asked of it.
pub type Row<'a> = (Case<'a>, Asked);

const DIVIDING: Case<'static> = Case {
    module: &DIVISION,
    entry: "div",
    args: &[Value::I32(8), Value::I32(2)],
};

const READS: Case<'static> = Case {
    module: &READING,
    entry: "f",
    args: &[],
};

const STARTS: Case<'static> = Case {
    module: &STARTED,
    entry: "f",
    args: &[Value::I32(7)],
};

const IMPORTS: Case<'static> = Case {
    module: &IMPORTED,
    entry: "f",
    args: &[Value::I32(16)],
};

const AGREEING: [Row<'static>; 4] = [
    (DIVIDING, Asked::Agrees(4)),
    (READS, Asked::Agrees(3)),
    (STARTS, Asked::Agrees(8)),
    (IMPORTS, Asked::Agrees(1)),
];

/// The operands of the division are there behind the second step, and the quotient behind the last
/// one; what a reply wrote stays; the entry comes behind the start function; and an import that is
/// an entry is called when it goes on.
const SHOWN: [Row<'static>; 5] = [
    (
        DIVIDING,
        Asked::Shows(
            [1, 1],
            Picture {
                end: Some(End::FuelSpent),
                steps: 2,
                operands: [Some(Value::I32(8)), Some(Value::I32(2))],
                global: None,
                word: None,
            },
        ),
    ),
    (
        DIVIDING,
        Asked::Shows(
            [2, 9],
            Picture {
                end: Some(End::Finished {
                    value: Some(Value::I32(4)),
                }),
                steps: 4,
                operands: [None, None],
                global: None,
                word: None,
            },
        ),
    ),
    (
        READS,
        Asked::Shows(
            [2, 9],
            Picture {
                end: Some(End::Trapped {
                    kind: TrapKind::Unreachable,
                }),
                steps: 3,
                operands: [Some(Value::I32(9)), None],
                global: None,
                word: Some(0x0403_0201),
            },
        ),
    ),
    (
        STARTS,
        Asked::Shows(
            [1, 9],
            Picture {
                end: Some(End::Finished { value: None }),
                steps: 8,
                operands: [None, None],
                global: Some(Value::I32(12)),
                word: None,
            },
        ),
    ),
    (
        IMPORTS,
        Asked::Shows(
            [0, 1],
            Picture {
                end: Some(End::Finished {
                    value: Some(Value::I32(9)),
                }),
                steps: 1,
                operands: [None, None],
                global: None,
                word: Some(0x0403_0201),
            },
        ),
    ),
];

const COPIED: [Row<'static>; 2] = [
    (READS, Asked::Stays([1, 2])),
    (STARTS, Asked::Stays([5, 3])),
];

fn operands_of(instance: &Instance<'_>) -> [Option<Value>; 2] {
    if instance.frame_count() == 0 {
        return [None, None];
    }
    let operands = instance.frame(0).operands;
    [operands.get(0).copied(), operands.get(1).copied()]
}

fn word_in(instance: &Instance<'_>) -> Option<u64> {
    match instance.memory() {
        Some(memory) => memory.load(16, 4),
        None => None,
    }
}

fn picture_of(instance: &Instance<'_>) -> Picture {
    Picture {
        end: end_of(instance),
        steps: instance.steps(),
        operands: operands_of(instance),
        global: instance.globals().get(0).copied(),
        word: word_in(instance),
    }
}

/// A write of 1, 2, 3, 4 to 16.
fn writes(alloc: Global) -> Result<Items<Write>, NoMemory> {
    let mut writes = Items::new(alloc);
    writes.push(Write {
        at: 16,
        bytes: Bytes::from_slice(alloc, &[1, 2, 3, 4])?,
    })?;
    Ok(writes)
}

/// One reply, with 9 and that write.
fn replies(alloc: Global) -> Result<Items<Reply>, NoMemory> {
    let mut replies = Items::new(alloc);
    replies.push(Reply {
        value: Some(Value::I32(9)),
        writes: writes(alloc)?,
    })?;
    Ok(replies)
}

/// Goes on for so many steps with an invocation whose steps were used up, on the replies from a
/// number on.
fn go_on(
    alloc: Global,
    instance: &mut Instance<'_>,
    imports: &[Import],
    replies: &[Reply],
    given: u64,
    more: u32,
)
    requires spent { IsSpent instance.old 8 false }
    requires imports { imports.now ≡ instance.old.module_.imports }
{
    if instance.steps() < 1000 && given <= replies.len() as u64 {
        let mut hosts = ScriptHosts::new(alloc, imports, replies, given);
        instance.resume(8, u64::from(more), &mut hosts);
    }
}

/// Invokes a function of a new instance for so many steps, and goes on for so many more.
fn run_parts(
    alloc: Global,
    instance: &mut Instance<'_>,
    imports: &[Import],
    replies: &[Reply],
    case: Case<'_>,
    fuel: [u32; 2],
)
    requires { imports.now ≡ instance.old.module_.imports }
{
    let [first, more] = fuel;
    if let Err(next) = invoke(alloc, instance, imports, replies, 0, case, first) {
        go_on(alloc, instance, imports, replies, next, more);
    }
}

/// Goes on in the same way. A copy that was made before.
fn copy_and_go_on<'a>(
    alloc: Global,
    instance: &mut Instance<'a>,
    imports: &[Import],
    replies: &[Reply],
    given: u64,
    more: u32,
) -> Option<Instance<'a>>
    requires spent { IsSpent instance.old 8 false }
    requires imports { imports.now ≡ instance.old.module_.imports }
{
    match instance.copy_of() {
        Ok(copy) => {
            go_on(alloc, instance, imports, replies, given, more);
            Some(copy)
        }
        Err(NoMemory) => None,
    }
}

/// The same as `run_parts`, with the copy that was made between the two parts, where the steps of
/// the first part were used up.
fn run_copy<'a>(
    alloc: Global,
    instance: &mut Instance<'a>,
    imports: &[Import],
    replies: &[Reply],
    case: Case<'_>,
    fuel: [u32; 2],
) -> Option<Instance<'a>>
    requires { imports.now ≡ instance.old.module_.imports }
{
    let [first, more] = fuel;
    match invoke(alloc, instance, imports, replies, 0, case, first) {
        Err(next) => copy_and_go_on(alloc, instance, imports, replies, next, more),
        Ok(_) => None,
    }
}

/// What a new instance shows that is run in two parts.
fn shown(
    alloc: Global,
    source: &Validated,
    replies: &[Reply],
    case: Case<'_>,
    fuel: [u32; 2],
) -> Option<Picture> {
    let imports = source.module().parts().imports.as_slice();
    match Instance::new(alloc, source) {
        Ok(mut instance) => {
            run_parts(alloc, &mut instance, imports, replies, case, fuel);
            Some(picture_of(&instance))
        }
        Err(_) => None,
    }
}

fn agrees(
    alloc: Global,
    source: &Validated,
    replies: &[Reply],
    case: Case<'_>,
    total: u32,
) -> bool {
    let whole = shown(alloc, source, replies, case, [total, 0]);
    for first in 0..total {
        if shown(alloc, source, replies, case, [first, total - first]) != whole {
            return false;
        }
    }
    whole.is_some()
}

/// Whether the original stands where the whole run does, and the copy where it was made, with the
/// steps that each has made itself.
fn are_apart(
    original: &Instance<'_>,
    copy: &Instance<'_>,
    whole: Option<Picture>,
    stopped: Option<Picture>,
    total: u32,
) -> bool {
    original.since_copy() == u64::from(total)
        && copy.since_copy() == 0
        && whole == Some(picture_of(original))
        && stopped == Some(picture_of(copy))
}

/// Whether a new instance that is run in these two parts, and the copy that is made between them,
/// show this.
fn part(
    alloc: Global,
    instance: &mut Instance<'_>,
    imports: &[Import],
    replies: &[Reply],
    case: Case<'_>,
    fuel: [u32; 2],
    pictures: [Option<Picture>; 2],
) -> bool
    requires { imports.now ≡ instance.old.module_.imports }
{
    let [whole, stopped] = pictures;
    let total = fuel[0].saturating_add(fuel[1]);
    match run_copy(alloc, instance, imports, replies, case, fuel) {
        Some(copy) => are_apart(instance, &copy, whole, stopped, total),
        None => false,
    }
}

fn stays(
    alloc: Global,
    source: &Validated,
    replies: &[Reply],
    case: Case<'_>,
    fuel: [u32; 2],
) -> bool {
    let total = fuel[0].saturating_add(fuel[1]);
    let stopped = shown(alloc, source, replies, case, [fuel[0], 0]);
    let whole = shown(alloc, source, replies, case, [total, 0]);
    let imports = source.module().parts().imports.as_slice();
    match Instance::new(alloc, source) {
        Ok(mut instance) => {
            let pictures = [whole, stopped];
            part(alloc, &mut instance, imports, replies, case, fuel, pictures)
        }
        Err(_) => false,
    }
}

fn is_so(alloc: Global, source: &Validated, replies: &[Reply], row: &Row<'_>) -> bool {
    let case = row.0;
    match row.1 {
        Asked::Shows(fuel, picture) => {
            shown(alloc, source, replies, case, fuel) == Some(picture)
        }
        Asked::Agrees(total) => agrees(alloc, source, replies, case, total),
        Asked::Stays(fuel) => stays(alloc, source, replies, case, fuel),
    }
}

/// Whether a row holds of its module.
pub fn resumes(alloc: Global, source: &Validated, row: &Row<'_>) -> bool {
    match replies(alloc) {
        Ok(replies) => is_so(alloc, source, replies.as_slice(), row),
        Err(_) => false,
    }
}

/// The number of the first row that does not hold, if there is one.
fn first_wrong(alloc: Global, rows: &[Row<'_>]) -> Option<usize> {
    for (i, row) in rows.iter().enumerate() {
        if !holds(alloc, row.0.module, &Question::Resumes(row)) {
            return Some(i);
        }
    }
    None
}

#[test]
fn two_parts_are_one(rt: HostRuntime) {
    assert_eq!(rt; first_wrong(rt.alloc(), &AGREEING), None);
}

#[test]
fn each_part_shows_what_it_leaves(rt: HostRuntime) {
    assert_eq!(rt; first_wrong(rt.alloc(), &SHOWN), None);
}

#[test]
fn a_copy_stays(rt: HostRuntime) {
    assert_eq!(rt; first_wrong(rt.alloc(), &COPIED), None);
}

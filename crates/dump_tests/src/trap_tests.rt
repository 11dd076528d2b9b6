//! Dumps of instances that stand at a trap. The offsets, locals, operands and bytes were put
//! together by hand from the encoded bodies.

ghost use Rattle.std.specs.Prelude.{◌≡◌, ◌≤◌};
ghost use Rattle.dump_format.specs.Form.{pages_of};
ghost use Rattle.dump_format.specs.calls.Contained.{IsContained};

use crate::runs::{Silent, valid};
use crate::trap::TRAP;
use dump_format::{Dump, Segment};
use dump_write::dump_bytes;
use machine_basics::TrapKind;
use std::alloc::Global;
use trap_image::image;
use wasm_machine::{Instance, RunEnd};
use wasm_syntax::{Import, Value};
use wasm_validate::Validated;

/// `div` of two i32s: `local.get 0`, `local.get 1`, `i32.div_s`.
const DIVISION: [u8; 41] = [
    0x00, 0x61, 0x73, 0x6d, 0x01, 0x00, 0x00, 0x00, 0x01, 0x07, 0x01, 0x60, 0x02, 0x7f, 0x7f, 0x01,
    0x7f, 0x03, 0x02, 0x01, 0x00, 0x07, 0x07, 0x01, 0x03, 0x64, 0x69, 0x76, 0x00, 0x00, 0x0a, 0x09,
    0x01, 0x07, 0x00, 0x20, 0x00, 0x20, 0x01, 0x6d, 0x0b,
];

/// The division, with a memory of two to four pages, of which the second one holds 1 2 3 4 behind
/// its first 16 bytes, and two globals.
const MEMORY: [u8; 74] = [
    0x00, 0x61, 0x73, 0x6d, 0x01, 0x00, 0x00, 0x00, 0x01, 0x07, 0x01, 0x60, 0x02, 0x7f, 0x7f, 0x01,
    0x7f, 0x03, 0x02, 0x01, 0x00, 0x05, 0x04, 0x01, 0x01, 0x02, 0x04, 0x06, 0x0b, 0x02, 0x7f, 0x00,
    0x41, 0x05, 0x0b, 0x7e, 0x00, 0x42, 0x06, 0x0b, 0x07, 0x07, 0x01, 0x03, 0x64, 0x69, 0x76, 0x00,
    0x00, 0x0a, 0x09, 0x01, 0x07, 0x00, 0x20, 0x00, 0x20, 0x01, 0x6d, 0x0b, 0x0b, 0x0c, 0x01, 0x00,
    0x41, 0x90, 0x80, 0x04, 0x0b, 0x04, 0x01, 0x02, 0x03, 0x04,
];

/// `f`: an `unreachable` in three blocks, each behind a constant.
const BLOCKS: [u8; 51] = [
    0x00, 0x61, 0x73, 0x6d, 0x01, 0x00, 0x00, 0x00, 0x01, 0x05, 0x01, 0x60, 0x00, 0x01, 0x7f, 0x03,
    0x02, 0x01, 0x00, 0x07, 0x05, 0x01, 0x01, 0x66, 0x00, 0x00, 0x0a, 0x17, 0x01, 0x15, 0x00, 0x41,
    0x01, 0x02, 0x7f, 0x41, 0x02, 0x02, 0x7f, 0x41, 0x03, 0x02, 0x7f, 0x00, 0x0b, 0x6a, 0x0b, 0x6a,
    0x0b, 0x6a, 0x0b,
];

/// `f` calls itself with one less down to 0, and there an entry past the end of the table.
const CALLS: [u8; 59] = [
    0x00, 0x61, 0x73, 0x6d, 0x01, 0x00, 0x00, 0x00, 0x01, 0x08, 0x02, 0x60, 0x01, 0x7f, 0x00, 0x60,
    0x00, 0x00, 0x03, 0x02, 0x01, 0x00, 0x04, 0x04, 0x01, 0x70, 0x00, 0x01, 0x07, 0x05, 0x01, 0x01,
    0x66, 0x00, 0x00, 0x0a, 0x16, 0x01, 0x14, 0x00, 0x20, 0x00, 0x45, 0x04, 0x40, 0x41, 0x09, 0x11,
    0x01, 0x00, 0x0b, 0x20, 0x00, 0x41, 0x01, 0x6b, 0x10, 0x00, 0x0b,
];

/// Whether the first invocation of an instance comes to this trap with at most three frames.
fn traps(
    instance: &mut Instance<'_>,
    imports: &[Import],
    entry: &str,
    args: &[Value],
    kind: TrapKind,
) -> bool
    requires { imports.now ≡ instance.old.module_.imports }
{
    if !instance.ready() || instance.steps() != 0 {
        return false;
    }
    let mut hosts = Silent { imports };
    match instance.invoke(entry, args, 3, 1000, &mut hosts) {
        Ok(RunEnd::Trapped { kind: found }) => found == kind,
        _ => false,
    }
}

/// Whether the frame at this index is one of function 0 with these values.
fn shows(
    instance: &Instance<'_>,
    index: usize,
    offset: u32,
    locals: &[Value],
    operands: &[Value],
) -> bool {
    if index >= instance.frame_count() {
        return false;
    }
    let shown = instance.frame(index);
    shown.function == 0
        && shown.offset == offset
        && shown.locals == locals
        && shown.operands == operands
}

/// What is looked at, when a function has come to a trap. One function makes the module of each of
/// them and one the instance, since the proof of a function that holds such a value is long.
#[derive(Clone, Copy)]
enum Scene {
    /// 7 is divided by 0.
    Division,
    /// As the division, with a memory and two globals.
    Memory,
    Blocks,
    Calls,
}

const GLOBALS: [Value; 2] = [Value::I32(5), Value::I64(6)];

fn has_page(segments: &[Segment]) -> bool {
    match segments {
        [page] => {
            page.at == 65_536
                && page.bytes.len() == 65_536
                && matches!(&page.bytes[15..21], [0, 1, 2, 3, 4, 0])
        }
        _ => false,
    }
}

fn has_both_globals(instances: &[dump_format::Instance]) -> bool {
    match instances {
        [instance] => {
            matches!(instance.memories.as_slice(), [0])
                && matches!(instance.globals.as_slice(), [0, 1])
        }
        _ => false,
    }
}

fn has_memory(dump: &Dump) -> bool {
    dump.memory == Some(2)
        && dump.globals.as_slice() == GLOBALS.as_slice()
        && has_page(dump.segments.as_slice())
        && has_both_globals(dump.instances.as_slice())
}

fn is_of_division(alloc: Global, dump: &Dump) -> bool
    requires pages { pages_of dump.now.memory ≤ 4096 }
    requires contained { IsContained dump.now }
{
    match dump_bytes(alloc, dump) {
        Ok(bytes) => bytes.as_slice() == TRAP.as_slice(),
        Err(_) => false,
    }
}

fn is_dumped(alloc: Global, instance: &Instance<'_>, scene: Scene) -> bool {
    let name = match scene {
        Scene::Division => "module",
        _ => "",
    };
    match image(alloc, instance, name) {
        Ok(dump) => match scene {
            Scene::Division => is_of_division(alloc, &dump),
            _ => has_memory(&dump),
        },
        Err(_) => false,
    }
}

fn shows_blocks(instance: &Instance<'_>) -> bool {
    let operands = [Value::I32(1), Value::I32(2), Value::I32(3)];
    instance.frame_count() == 1 && shows(instance, 0, 13, &[], &operands)
}

fn shows_calls(instance: &Instance<'_>) -> bool {
    instance.frame_count() == 3
        && shows(instance, 0, 8, &[Value::I32(0)], &[Value::I32(9)])
        && shows(instance, 1, 17, &[Value::I32(1)], &[])
        && shows(instance, 2, 17, &[Value::I32(2)], &[])
}

/// Whether the globals are lent one by one too.
fn shows_globals(instance: &Instance<'_>) -> bool {
    matches!(instance.globals(), [Value::I32(5), Value::I64(6)])
}

fn is_seen_by(alloc: Global, instance: &mut Instance<'_>, imports: &[Import], scene: Scene) -> bool
    requires { imports.now ≡ instance.old.module_.imports }
{
    let seven_by_zero = [Value::I32(7), Value::I32(0)];
    let zero = TrapKind::DivideByZero;
    match scene {
        Scene::Division => {
            traps(instance, imports, "div", &seven_by_zero, zero)
                && is_dumped(alloc, instance, scene)
        }
        Scene::Memory => {
            traps(instance, imports, "div", &seven_by_zero, zero)
                && shows_globals(instance)
                && is_dumped(alloc, instance, scene)
        }
        Scene::Blocks => {
            traps(instance, imports, "f", &[], TrapKind::Unreachable) && shows_blocks(instance)
        }
        Scene::Calls => {
            let two = [Value::I32(2)];
            traps(instance, imports, "f", &two, TrapKind::UndefinedElement) && shows_calls(instance)
        }
    }
}

fn is_seen_in(alloc: Global, source: &Validated, scene: Scene) -> bool {
    match Instance::new(alloc, source) {
        Ok(mut instance) => {
            let imports = source.module().parts().imports.as_slice();
            is_seen_by(alloc, &mut instance, imports, scene)
        }
        Err(_) => false,
    }
}

/// Whether all is as it must be at the trap of the function of the module that these bytes spell.
fn is_seen(alloc: Global, bytes: &[u8], scene: Scene) -> bool {
    match valid(alloc, bytes) {
        Some(source) => is_seen_in(alloc, &source, scene),
        None => false,
    }
}

#[test]
fn a_division_by_zero_has_these_bytes(rt: HostRuntime) {
    assert!(rt; is_seen(rt.alloc(), &DIVISION, Scene::Division));
}

#[test]
fn operands_of_all_blocks_are_shown(rt: HostRuntime) {
    assert!(rt; is_seen(rt.alloc(), &BLOCKS, Scene::Blocks));
}

#[test]
fn callers_stand_at_their_calls(rt: HostRuntime) {
    assert!(rt; is_seen(rt.alloc(), &CALLS, Scene::Calls));
}

#[test]
fn made_pages_and_globals_are_dumped(rt: HostRuntime) {
    assert!(rt; is_seen(rt.alloc(), &MEMORY, Scene::Memory));
}

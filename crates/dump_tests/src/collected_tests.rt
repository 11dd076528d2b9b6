//! Calls of the collector, put together by hand or made by a module, and what becomes of them.

ghost use Rattle.std.specs.Prelude.{◌≡◌, ◌≤◌};
ghost use Rattle.dump_format.specs.Form.{pages_of};
ghost use Rattle.dump_format.specs.calls.Contained.{IsContained};

use crate::runs::{Silent, valid};
use crate::trap::TRAP;
use dump_format::Dump;
use dump_write::dump_bytes;
use host_collector::{CloseFault, Collecting, close};
use std::alloc::{AllocError, Global};
use wasm_machine::{Instance, RunEnd};
use wasm_syntax::{CollectorCall, Import};
use wasm_validate::Validated;

/// The arguments of `frame`, in order, or of `value_i32`.
type Told = &'static [u32];

/// 7 is divided by 0 at code offset 5 of function 0: two operands, two locals, the entry of kind 2,
/// and no globals.
const DIVISION: [Told; 6] = [&[7], &[0], &[7], &[0], &[2, 0, 5, 2], &[255, 0, 0, 0]];

/// Calls, and the index of the first offending one.
const TORN: [(&[Told], usize); 14] = [
    (&[], 0),
    (&[&[0, 0, 0, 0]], 0),
    (&[&[8, 0, 0, 0]], 0),
    (&[&[255, 0, 0, 0]], 0),
    (&[&[7], &[1, 0, 0, 2]], 1),
    (&[&[7], &[1, 0, 0, 1]], 2),
    (&[&[1, 0, 0, 0], &[1, 0, 0, 0]], 1),
    (&[&[1, 0, 0, 0], &[0, 9, 8, 1]], 1),
    (&[&[1, 0, 0, 0], &[0, 9, 8, 0], &[7]], 3),
    (&[&[1, 0, 0, 0], &[7], &[255, 0, 0, 0]], 2),
    (&[&[1, 0, 0, 0], &[255, 0, 0, 1]], 1),
    (&[&[1, 0, 0, 0], &[255, 1, 0, 0]], 1),
    (&[&[1, 0, 0, 0], &[255, 0, 1, 0]], 1),
    (&[&[1, 0, 0, 0], &[255, 0, 0, 0], &[7]], 2),
];

/// `f` makes the calls of `DIVISION`, of imports `value_i32` and `frame` of module `coredump`.
const CALLER: [u8; 120] = [
    0x00, 0x61, 0x73, 0x6d, 0x01, 0x00, 0x00, 0x00, 0x01, 0x0f, 0x03, 0x60, 0x01, 0x7f, 0x00, 0x60,
    0x04, 0x7f, 0x7f, 0x7f, 0x7f, 0x00, 0x60, 0x00, 0x00, 0x02, 0x27, 0x02, 0x08, 0x63, 0x6f, 0x72,
    0x65, 0x64, 0x75, 0x6d, 0x70, 0x09, 0x76, 0x61, 0x6c, 0x75, 0x65, 0x5f, 0x69, 0x33, 0x32, 0x00,
    0x00, 0x08, 0x63, 0x6f, 0x72, 0x65, 0x64, 0x75, 0x6d, 0x70, 0x05, 0x66, 0x72, 0x61, 0x6d, 0x65,
    0x00, 0x01, 0x03, 0x02, 0x01, 0x02, 0x07, 0x05, 0x01, 0x01, 0x66, 0x00, 0x02, 0x0a, 0x29, 0x01,
    0x27, 0x00, 0x41, 0x07, 0x10, 0x00, 0x41, 0x00, 0x10, 0x00, 0x41, 0x07, 0x10, 0x00, 0x41, 0x00,
    0x10, 0x00, 0x41, 0x02, 0x41, 0x00, 0x41, 0x05, 0x41, 0x02, 0x10, 0x01, 0x41, 0xff, 0x01, 0x41,
    0x00, 0x41, 0x00, 0x41, 0x00, 0x10, 0x01, 0x0b,
];

fn call(told: &[u32]) -> CollectorCall {
    match told {
        [kind, function, offset, locals] => CollectorCall::Frame {
            kind: *kind,
            function: *function,
            offset: *offset,
            locals: *locals,
        },
        [bits] => CollectorCall::ValueI32(*bits),
        _ => CollectorCall::ValueI64(0),
    }
}

fn all_calls(alloc: Global, told: &[Told]) -> Result<Vec<CollectorCall>, AllocError> {
    let mut calls = Vec::new(alloc);
    for arguments in told {
        calls.push(call(arguments))?;
    }
    Ok(calls)
}

/// Whether calls are torn at an index.
fn is_torn(alloc: Global, calls: &[CollectorCall], index: usize) -> bool {
    match close(alloc, calls, None, "module") {
        Err(CloseFault::Torn { at }) => at == index,
        _ => false,
    }
}

fn are_torn(alloc: Global, told: &[Told], index: usize) -> bool {
    match all_calls(alloc, told) {
        Ok(calls) => is_torn(alloc, &calls, index),
        Err(_) => false,
    }
}

fn has_bytes(alloc: Global, dump: &Dump, wanted: &[u8]) -> bool
    requires pages { pages_of dump.now.memory ≤ 4096 }
    requires contained { IsContained dump.now }
{
    match dump_bytes(alloc, dump) {
        Ok(bytes) => bytes.as_slice() == wanted,
        Err(_) => false,
    }
}

/// Whether calls are whole, of this kind, and their dump has these bytes.
fn is_closed(alloc: Global, calls: &[CollectorCall], kind: u32, wanted: &[u8]) -> bool {
    match close(alloc, calls, None, "module") {
        Ok(collected) => collected.kind == kind && has_bytes(alloc, &collected.dump, wanted),
        Err(_) => false,
    }
}

fn are_closed(alloc: Global, told: &[Told], kind: u32, wanted: &[u8]) -> bool {
    match all_calls(alloc, told) {
        Ok(calls) => is_closed(alloc, &calls, kind, wanted),
        Err(_) => false,
    }
}

#[test]
fn the_first_offending_call_is_named(rt: HostRuntime) {
    for (told, index) in TORN {
        assert!(rt; are_torn(rt.alloc(), told, index));
    }
}

#[test]
fn the_calls_of_a_division_by_zero_have_these_bytes(rt: HostRuntime) {
    assert!(rt; are_closed(rt.alloc(), &DIVISION, 2, &TRAP));
}

#[test]
fn a_collector_hands_back_the_other_host_side(rt: HostRuntime) {
    assert!(rt; Collecting::new(rt.alloc(), 7).into_inner() == 7);
}

fn holds_the_division(alloc: Global, collecting: &Collecting<Silent<'_>>) -> bool {
    match collecting.close(None, "module") {
        Ok(collected) => collected.kind == 2 && has_bytes(alloc, &collected.dump, &TRAP),
        Err(_) => false,
    }
}

/// Whether an instance's `f` runs to its end, and the collector has its calls then.
fn is_collected(alloc: Global, instance: &mut Instance<'_>, imports: &[Import]) -> bool
    requires { imports.now ≡ instance.old.module_.imports }
{
    let mut collecting = Collecting::new(alloc, Silent { imports });
    if !instance.ready() || instance.steps() != 0 {
        return false;
    }
    match instance.invoke("f", &[], 3, 1000, &mut collecting) {
        Ok(RunEnd::Finished { .. }) => holds_the_division(alloc, &collecting),
        _ => false,
    }
}

fn is_collected_of(alloc: Global, source: &Validated) -> bool {
    match Instance::new(alloc, source) {
        Ok(mut instance) => {
            is_collected(
                alloc,
                &mut instance,
                source.module().parts().imports.as_slice(),
            )
        }
        Err(_) => false,
    }
}

fn is_collected_in(alloc: Global, bytes: &[u8]) -> bool {
    match valid(alloc, bytes) {
        Some(source) => is_collected_of(alloc, &source),
        None => false,
    }
}

#[test]
fn calls_that_a_module_makes_have_these_bytes(rt: HostRuntime) {
    assert!(rt; is_collected_in(rt.alloc(), &CALLER));
}

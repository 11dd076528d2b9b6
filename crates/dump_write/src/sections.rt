//! The sections that stand before the bytes of the memory (tool-conventions Coredump.md; Core 5.5).

ghost use Rattle.std.specs.Prelude.{◌≡◌, ◌++◌, ◌∷◌, [], codes, length, IfOk, OnOk, All};
ghost use Rattle.std.specs.List.{range_with_len};
ghost use Rattle.wasm_leb.specs.Writing.{unsigned_bytes};
ghost use Rattle.dump_write.specs.Spelled.{name_bytes, vector_bytes, section_bytes};
ghost use Rattle.dump_write.specs.Canonical.{memory_indices, instance_of, instance_bytes, core_bytes, modules_bytes};
ghost use Rattle.dump_write.specs.Canonical.{instances_bytes, stack_bytes, memory_section, globals_section};
ghost use Rattle.dump_write.specs.Canonical.{sections_before_data};
ghost use Rattle.dump_write.specs.calls.Typed.{IsFrameTyped, IsTyped};
ghost use Rattle.wasm_syntax.specs.Numbers.{IsValue};

use crate::parts::{Encode, encode_module, encode_name, encode_vector};
use causes::NoMemory;
use dump_format::{Dump, Frame};
use std::alloc::Global;
use wasm_leb::{write_u32, write_u64};
use wasm_syntax::Value;

/// The magic and the version of a module (Core 5.5.15).
const HEADER: [u8; 8] = [0x00, 0x61, 0x73, 0x6d, 0x01, 0x00, 0x00, 0x00];

/// A section: its id, its size and its contents (Core 5.5.2).
#[tactic(auto, unfolding(crate::specs::Spelled::section_bytes))]
fn push_section(out: &mut Vec<u8>, id: u8, contents: &[u8]) -> Result<(), NoMemory>
    ensures { OnOk result (out.new.items ≡ out.old.items ++ section_bytes id contents.now) }
{
    out.push(id)?;
    write_u64(out, contents.len() as u64)?;
    out.extend_from_slice(contents)?;
    Ok(())
}

/// The contents of a custom section, up to what stands behind its name (Core 5.5.3).
fn titled(alloc: Global, title: &str) -> Result<Vec<u8>, NoMemory>
    ensures { IfOk result (λ v. v.items ≡ name_bytes title.now) }
{
    let mut contents = Vec::new(alloc);
    encode_name(&mut contents, title)?;
    Ok(contents)
}

#[tactic(auto, unfolding(crate::specs::Spelled::custom_bytes, crate::specs::Canonical::core_bytes))]
fn push_core(alloc: Global, out: &mut Vec<u8>, name: &str) -> Result<(), NoMemory>
    ensures { OnOk result (out.new.items ≡ out.old.items ++ core_bytes name.now) }
{
    let mut contents = titled(alloc, "core")?;
    encode_module(&mut contents, name)?;
    push_section(out, 0, &contents)
}

/// The one module, which has the name of the dump.
fn push_modules(alloc: Global, out: &mut Vec<u8>, name: &str) -> Result<(), NoMemory>
    ensures { OnOk result (out.new.items ≡ out.old.items ++ modules_bytes name.now) }
{
    let mut contents = titled(alloc, "coremodules")?;
    write_u64(&mut contents, 1)?;
    encode_module(&mut contents, name)?;
    push_section(out, 0, &contents)
}

/// A vector of the indices below a count.
#[tactic(auto, unfolding(crate::specs::Spelled::vector_bytes))]
fn push_indices(out: &mut Vec<u8>, count: u64) -> Result<(), NoMemory>
    ensures { OnOk result (out.new.items
        ≡ out.old.items ++ vector_bytes unsigned_bytes (range_with_len 0 count)) }
{
    write_u64(out, count)?;
    for index in 0..count {
        write_u64(out, index)?;
    }
    Ok(())
}

/// How many memories there are.
fn memory_count(memory: Option<u32>) -> u64
    ensures { memory_indices memory ≡ range_with_len 0 result }
{
    match memory {
        Some(_) => 1,
        None => 0,
    }
}

/// The one instance, of the one module, with its memory and all globals.
#[tactic(auto, unfolding(crate::specs::Canonical::instance_of, crate::specs::Canonical::instance_bytes))]
fn push_instance(out: &mut Vec<u8>, dump: &Dump<'_>) -> Result<(), NoMemory>
    ensures { OnOk result (out.new.items ≡ out.old.items ++ instance_bytes (instance_of dump.now)) }
{
    out.push(0x00)?;
    write_u64(out, 0)?;
    push_indices(out, memory_count(dump.memory))?;
    push_indices(out, dump.globals.len() as u64)
}

#[tactic(auto, using(crate::proofs::Vectors::instances_are))]
fn push_instances(alloc: Global, out: &mut Vec<u8>, dump: &Dump<'_>) -> Result<(), NoMemory>
    ensures { OnOk result (out.new.items
        ≡ out.old.items ++ instances_bytes (instance_of dump.now)) }
{
    let mut contents = titled(alloc, "coreinstances")?;
    write_u64(&mut contents, 1)?;
    push_instance(&mut contents, dump)?;
    push_section(out, 0, &contents)
}

/// The frames of the one thread.
#[tactic(auto, unfolding(crate::specs::Spelled::custom_bytes, crate::specs::Canonical::stack_bytes))]
fn push_stack(alloc: Global, out: &mut Vec<u8>, frames: &[Frame]) -> Result<(), NoMemory>
    ensures bytes { OnOk result (out.new.items ≡ out.old.items ++ stack_bytes frames.now) }
    ensures typed { OnOk result (All IsFrameTyped frames.now) }
{
    let mut contents = titled(alloc, "corestack")?;
    encode_module(&mut contents, "main")?;
    encode_vector(&mut contents, frames)?;
    push_section(out, 0, &contents)
}

/// The size of the memory, where there is one, as limits without a maximum (Core 5.5.8).
#[tactic(auto, using(crate::proofs::Vectors::memory_is), unfolding(crate::specs::Canonical::memory_section))]
fn push_memory(alloc: Global, out: &mut Vec<u8>, memory: Option<u32>) -> Result<(), NoMemory>
    ensures { OnOk result (out.new.items ≡ out.old.items ++ memory_section memory) }
{
    let Some(pages) = memory else {
        return Ok(());
    };
    let mut contents = Vec::new(alloc);
    write_u64(&mut contents, 1)?;
    contents.push(0x00)?;
    write_u32(&mut contents, pages)?;
    push_section(out, 5, &contents)
}

/// The globals, where there are any.
#[tactic(auto, unfolding(crate::specs::Canonical::globals_section))]
fn push_globals(alloc: Global, out: &mut Vec<u8>, globals: &[Value]) -> Result<(), NoMemory>
    ensures bytes { OnOk result (out.new.items ≡ out.old.items ++ globals_section globals.now) }
    ensures typed { OnOk result (All IsValue globals.now) }
{
    if globals.is_empty() {
        return Ok(());
    }
    let mut contents = Vec::new(alloc);
    encode_vector(&mut contents, globals)?;
    push_section(out, 6, &contents)
}

/// All that stands before the data section.
#[tactic(auto, unfolding(crate::specs::Canonical::sections_before_data))]
pub fn sections_before_data(alloc: Global, dump: &Dump<'_>) -> Result<Vec<u8>, NoMemory>
    ensures bytes { IfOk result (λ v. v.items ≡ sections_before_data dump.now) }
    ensures typed { OnOk result (IsTyped dump.now) }
{
    let name = dump.name.as_str();
    let mut out = Vec::from_slice(alloc, &HEADER)?;
    push_core(alloc, &mut out, name)?;
    push_modules(alloc, &mut out, name)?;
    push_instances(alloc, &mut out, dump)?;
    push_stack(alloc, &mut out, dump.frames.as_slice())?;
    push_memory(alloc, &mut out, dump.memory)?;
    push_globals(alloc, &mut out, dump.globals.as_slice())?;
    Ok(out)
}

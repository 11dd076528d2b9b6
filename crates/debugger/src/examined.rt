//! Bytes of the recorded memory in lines.

ghost use Rattle.std.specs.Prelude.{◌≡◌, ◌<◌, ◌+◌, ◌*◌, ◌≤◌, ◌∷◌, [], ◌^◌, ◌++◌, nat_le, flat_map, length, OnOk, IfOk};
ghost use Rattle.std.specs.Prelude.{option_map};
ghost use Rattle.std.specs.List.{range_with_len};
ghost use Rattle.linear_memory.specs.Memory.{window};
ghost use Rattle.debugger.specs.Examined as definitions;

use causes::NoMemory;
use linear_memory::Memory;
use pm_text::Text;
use std::alloc::Global;

/// How many bytes stand in a line.
const ROW_BYTES: usize = 16;

/// The byte at an address inside a memory.
fn byte_at(memory: &Memory, at: u64) -> u8
    requires { at < length memory.now.memory.bytes }
    ensures { window memory.now.memory.bytes at 1 ≡ result ∷ [] }
{
    match memory.load(at, 1) {
        Some(byte) => byte as u8,
        None => 0,
    }
}

/// So many bytes from an address on, inside a memory.
fn bytes_at(alloc: Global, memory: &Memory, at: u64, count: u64) -> Result<Vec<u8>, NoMemory>
    requires inside { at + count ≤ length memory.now.memory.bytes }
    requires low { at + count < 2 ^ 32 }
    ensures { IfOk result (λ bytes. bytes.items ≡ window memory.now.memory.bytes at count) }
{
    let mut bytes = Vec::new(alloc);
    for i in 0..count {
        bytes.push(byte_at(memory, at + i))?;
    }
    Ok(bytes)
}

fn push_byte(out: &mut Text, byte: u8) -> Result<(), NoMemory>
    ensures { OnOk result (out.new ≡ out.old ++ definitions.byte_text byte) }
{
    out.push_str(" ")?;
    out.push_hex(u64::from(byte), 2)
}

fn push_bytes(out: &mut Text, row: &[u8]) -> Result<(), NoMemory>
    ensures { OnOk result (out.new ≡ out.old ++ flat_map definitions.byte_text row.now) }
{
    for byte in row {
        push_byte(out, *byte)?;
    }
    Ok(())
}

/// Adds a row of bytes, behind the address of the first.
#[tactic(auto, unfolding(crate::specs::Examined::row_text))]
fn push_row(out: &mut Text, at: u64, row: &[u8]) -> Result<(), NoMemory>
    ensures { OnOk result (out.new ≡ out.old ++ definitions.row_text at row.now) }
{
    out.push_hex(at, 8)?;
    out.push_str(":")?;
    push_bytes(out, row)?;
    out.push_str("\n")
}

/// The row of a number, of at most 16 bytes.
fn row_at(bytes: &[u8], row: usize) -> &[u8]
    requires { definitions.row_bytes * row < length bytes.now }
    ensures { result.now ≡ window bytes.now (definitions.row_bytes * row) definitions.row_bytes }
{
    let rest = &bytes[ROW_BYTES * row..];
    if rest.len() <= ROW_BYTES {
        rest
    } else {
        &rest[..ROW_BYTES]
    }
}

/// Adds bytes from an address on, 16 to a line.
#[tactic(auto, unfolding(crate::specs::Examined::rows_text))]
fn push_rows(out: &mut Text, at: u64, bytes: &[u8]) -> Result<(), NoMemory>
    requires { at + length bytes.now < 2 ^ 32 }
    ensures { OnOk result (out.new ≡ out.old ++ definitions.rows_text at bytes.now) }
{
    let rows = (bytes.len() + ROW_BYTES - 1) / ROW_BYTES;
    for row in 0..rows {
        push_row(out, at + (ROW_BYTES * row) as u64, row_at(bytes, row))?;
    }
    Ok(())
}

/// Whether so many bytes from an address on are inside a memory of this length.
fn is_inside(length: u64, at: u64, count: u64) -> bool
    ensures { result ≡ nat_le (at + count) length }
{
    at <= length && count <= length - at
}

fn push_memory(
    out: &mut Text,
    alloc: Global,
    memory: &Memory,
    at: u64,
    count: u64,
) -> Result<(), NoMemory>
    ensures { OnOk result (out.new
        ≡ out.old ++ definitions.bytes_text memory.now.memory.bytes at count) }
{
    let length = u64::from(memory.size()) * 65536;
    if !is_inside(length, at, count) {
        return out.push_str("<outside memory>\n");
    }
    let bytes = bytes_at(alloc, memory, at, count)?;
    push_rows(out, at, bytes.as_slice())
}

/// Adds so many bytes from an address on: 16 to a line behind the address of the first. Where one
/// of them is outside the memory, or there is no memory, a mark stands in their place.
pub fn push_examined(
    out: &mut Text,
    alloc: Global,
    memory: Option<&Memory>,
    at: u64,
    count: u64,
) -> Result<(), NoMemory>
    ensures { OnOk result (out.new ≡ out.old ++ definitions.examined_text
        (option_map (λ m. m.now.memory) memory.entry) at count) }
{
    match memory {
        Some(memory) => push_memory(out, alloc, memory, at, count),
        None => out.push_str("<not recorded>\n"),
    }
}

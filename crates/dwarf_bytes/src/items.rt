//! Single items of DWARF sections, over a reader of `wasm_bytes`.

ghost use Rattle.std.specs.Prelude.{◌≤◌, ◌<◌, ◌≡◌, ◌+◌, ◌^◌, IfOk, OnOk, length, position};
ghost use Rattle.wasm_bytes.specs.Place.{Moves, Stays};
ghost use Rattle.wasm_bytes.specs.calls.Answers.{Reads, result_now};
ghost use Rattle.dwarf_bytes.specs.Items.{little_endian, number_item, is_zero, text_item, long_block_item};
ghost use Rattle.dwarf_bytes.specs.Items.{unit_block_item};

use wasm_bytes::{Malformed, Reader};

/// The number that at most 8 bytes spell, the lowest first.
fn little_endian(bytes: &[u8]) -> u64
    requires short { length bytes.now ≤ 8 }
    ensures is { result ≡ little_endian bytes.now }
    ensures below { result < 256 ^ length bytes.now }
{
    match bytes {
        [] => 0,
        [low, high @ ..] => u64::from(*low) + 256 * little_endian(high),
    }
}

/// A number of so many bytes, at most 8, the lowest first (DWARF 4 section 7.4).
#[tactic(auto, using(crate::proofs::Texts::ran), unfolding(crate::specs::Items::number_item, wasm_bytes::specs::Reading::run_item))]
pub fn number<'a>(reader: &mut Reader<'a>, width: usize) -> Result<u64, Malformed>
    requires short { width ≤ 8 }
    ensures item { Reads result reader.new (number_item width reader.old) }
    ensures behind { OnOk result (reader.new.at ≡ reader.old.at + width) }
    ensures stays { OnOk result (Stays reader.old reader.new) }
    ensures below { IfOk result (λ n. n < 256 ^ width) }
{
    let bytes = reader.run(width)?;
    Ok(little_endian(bytes))
}

/// Where the first zero byte is.
fn zero_at(bytes: &[u8]) -> Option<usize>
    ensures { result ≡ position is_zero bytes.now }
{
    bytes.iter().position(|byte| *byte == 0)
}

/// A text: the bytes up to a zero byte, which is read too (DWARF 4 section 7.5.4).
pub fn text<'a>(reader: &mut Reader<'a>) -> Result<&'a [u8], Malformed>
    ensures item { Reads (result_now result) reader.new (text_item reader.old) }
    ensures moves { OnOk result (Moves reader.old reader.new) }
{
    match zero_at(reader.fork().rest()) {
        Some(len) => {
            let bytes = reader.run(len + 1)?;
            Ok(&bytes[..len])
        }
        None => Err(Malformed { at: reader.at() }),
    }
}

/// A reader of the block that a length in LEB128 opens. This one goes on behind the block.
#[tactic(auto, unfolding(crate::specs::Items::long_block_item))]
pub fn open_long<'a>(reader: &mut Reader<'a>) -> Result<Reader<'a>, Malformed>
    ensures item { Reads result reader.new (long_block_item reader.old) }
    ensures moves { OnOk result (Moves reader.old reader.new) }
{
    let start = reader.at();
    let len = reader.u64()?;
    reader.cut(len, start)
}

/// A reader of the block that the length of a unit opens: 4 bytes, below FFFFFFF0 (DWARF 4 section
/// 7.4). This one goes on behind the block.
#[tactic(auto, unfolding(crate::specs::Items::number_item, crate::specs::Items::unit_block_item))]
pub fn open_unit<'a>(reader: &mut Reader<'a>) -> Result<Reader<'a>, Malformed>
    ensures item { Reads result reader.new (unit_block_item reader.old) }
    ensures moves { OnOk result (Moves reader.old reader.new) }
    ensures inside { IfOk result (λ inner. length inner.block ≤ length reader.old.block) }
{
    let start = reader.at();
    let len = number(reader, 4)?;
    if len >= 0xFFFF_FFF0 {
        return Err(Malformed { at: start });
    }
    reader.cut(len, start)
}

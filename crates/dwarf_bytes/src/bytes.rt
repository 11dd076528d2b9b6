//! Bytes, and blocks whose length is a number.

ghost use Rattle.std.specs.Prelude.{◌≡◌, OnOk};
ghost use Rattle.wasm_bytes.specs.Place.{Moves};
ghost use Rattle.wasm_bytes.specs.calls.Answers.{Reads};
ghost use Rattle.dwarf_bytes.specs.Items.{number_item, counted_block_item};

use crate::items::number;
use wasm_bytes::{Malformed, Reader};

/// A number of one byte.
#[tactic(auto, using(crate::proofs::OneByte::byte_is_number))]
pub fn byte(reader: &mut Reader<'_>) -> Result<u8, Malformed>
    ensures item { Reads result reader.new (number_item 1 reader.old) }
    ensures moves { OnOk result (Moves reader.old reader.new) }
{
    reader.byte()
}

/// A reader of the block that a length of 4 bytes opens. This one goes on behind the block.
#[tactic(auto, unfolding(crate::specs::Items::counted_block_item))]
pub fn open_counted<'a>(reader: &mut Reader<'a>) -> Result<Reader<'a>, Malformed>
    ensures item { Reads result reader.new (counted_block_item reader.old) }
    ensures moves { OnOk result (Moves reader.old reader.new) }
{
    let start = reader.at();
    let len = number(reader, 4)?;
    reader.cut(len, start)
}

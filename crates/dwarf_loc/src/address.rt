//! Addresses.

ghost use Rattle.std.specs.Prelude.{◌≡◌, OnOk};
ghost use Rattle.wasm_bytes.specs.Place.{Moves};
ghost use Rattle.wasm_bytes.specs.calls.Answers.{Reads};
ghost use Rattle.dwarf_bytes.specs.Items.{number_item};

use dwarf_bytes::number;
use wasm_bytes::{Malformed, Reader};

/// An address, which has 4 bytes.
pub fn read_address(reader: &mut Reader<'_>) -> Result<u32, Malformed>
    ensures item { Reads result reader.new (number_item 4 reader.old) }
    ensures moves { OnOk result (Moves reader.old reader.new) }
{
    let address = number(reader, 4)?;
    Ok(address as u32)
}

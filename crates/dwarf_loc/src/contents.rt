//! What the entries of lists hold.

ghost use Rattle.std.specs.Prelude.{◌≡◌, OnOk};
ghost use Rattle.wasm_bytes.specs.Place.{Place, Read, Stays};
ghost use Rattle.wasm_bytes.specs.calls.Answers.{Reads};
ghost use Rattle.dwarf_loc.specs.Contents.{span_item, nothing_item};

use wasm_bytes::{Malformed, Reader};

/// Bytes of a section.
#[derive(Clone, Copy, PartialEq, Eq)]
pub struct Span {
    /// The offset of the first one in the section.
    pub at: usize,
    pub len: usize,
}

/// What the entries of a kind of list hold.
pub trait Contents {
    type Value: Drop;

    /// The value and the place behind it, or the offset of the first item without a reading.
    ghost item: { Place → Read Self.Value };

    fn read(reader: &mut Reader<'_>) -> Result<Self::Value, Malformed>
        ensures item { Reads result reader.new (item reader.old) }
        ensures stays { OnOk result (Stays reader.old reader.new) };
}

/// The entries of range lists hold nothing.
pub struct NoContents;

impl Contents for NoContents {
    type Value = ();

    ghost item = { nothing_item };

    fn read(_reader: &mut Reader<'_>) -> Result<(), Malformed> {
        Ok(())
    }
}

/// The place of so many bytes.
#[tactic(auto, unfolding(crate::specs::Contents::span_item))]
pub fn read_span(reader: &mut Reader<'_>, len: usize) -> Result<Span, Malformed>
    ensures item { Reads result reader.new (span_item len reader.old) }
    ensures stays { OnOk result (Stays reader.old reader.new) }
{
    let at = reader.at();
    reader.run(len)?;
    Ok(Span { at, len })
}

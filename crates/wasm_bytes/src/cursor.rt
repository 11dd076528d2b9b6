//! What items are read from.

ghost use Rattle.std.specs.Prelude.{OnOk};
ghost use Rattle.wasm_bytes.specs.Place.{Place, Moves};
ghost use Rattle.wasm_bytes.specs.Reading.{u32_item};
ghost use Rattle.wasm_bytes.specs.calls.Answers.{Reads};

use crate::faults::Malformed;
use crate::reader::Reader;

/// What items are read from: a place that goes on.
pub trait Cursor {
    /// Where it stands.
    ghost place: { Self → Place };

    /// The count in front of a vector (Core 5.1.3).
    fn count(&mut self) -> Result<u32, Malformed>
        ensures item { Reads result (place self.new) (u32_item (place self.old)) }
        ensures moves { OnOk result (Moves (place self.old) (place self.new)) };
}

impl<'a> Cursor for Reader<'a> {
    ghost place = { λ reader. reader };

    fn count(&mut self) -> Result<u32, Malformed> {
        self.u32()
    }
}

//! The global that tells the length of the memory, which guards read.

ghost use Rattle.std.specs.Prelude.{OnOk};
ghost use Rattle.rewrite_bodies.specs.calls.Guards.{memory_length, renew, renewed, set_length};
ghost use Rattle.rewrite_code.specs.calls.Writing.{Emits};

use crate::CodeWriter;
use causes::NoMemory;
use index_map::IndexMap;
use wasm_syntax::{Basic, Binary, Convert, Limits, ValType, Value};

/// Four bytes less than the length of the memory, as an i64.
fn memory_length(writer: &mut CodeWriter) -> Result<(), NoMemory>
    ensures { OnOk result (Emits memory_length writer.old writer.new) }
{
    writer.basic(Basic::MemorySize)?;
    writer.basic(Basic::Convert(Convert::ExtendU))?;
    // A page has 2 ^ 16 bytes, and the shift is spelled in fewer bytes than the product.
    writer.const_value(Value::I64(16))?;
    writer.basic(Basic::Binary(ValType::I64, Binary::Shl))?;
    writer.const_value(Value::I64(4))?;
    writer.basic(Basic::Binary(ValType::I64, Binary::Sub))
}

/// Sets the global by the length of the memory, behind an instruction that changes it.
#[tactic(auto, using(crate::proofs::LengthSet::length_set))]
pub(crate) fn set_length(map: &IndexMap<'_>, writer: &mut CodeWriter) -> Result<(), NoMemory>
    ensures { OnOk result (Emits (set_length map.now) writer.old writer.new) }
{
    memory_length(writer)?;
    writer.basic(Basic::GlobalSet(map.length()))
}

/// The same, in a module with these memories.
fn renew_in(
    map: &IndexMap<'_>,
    writer: &mut CodeWriter,
    memories: &[Limits],
) -> Result<(), NoMemory>
    ensures { OnOk result (Emits (renewed memories.now map.now) writer.old writer.new) }
{
    match memories {
        [] => Ok(()),
        [..] => set_length(map, writer),
    }
}

/// Sets the global where the module has a memory: a host may have made it longer, in the call of an
/// import or between two calls.
pub fn renew(map: &IndexMap<'_>, writer: &mut CodeWriter) -> Result<(), NoMemory>
    ensures { OnOk result (Emits (renew map.now) writer.old writer.new) }
{
    renew_in(map, writer, map.source().memories.as_slice())
}

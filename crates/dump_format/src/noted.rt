//! Values, globals and frames, in which floats are noted.

ghost use Rattle.std.specs.Prelude.{◌≡◌, OnOk};
ghost use Rattle.wasm_bytes.specs.Place.{Moves};
ghost use Rattle.wasm_bytes.specs.Notes.{plain};
ghost use Rattle.wasm_bytes.specs.calls.Answers.{Gives, Reads};
ghost use Rattle.dump_format.specs.Form.{mutability_item};
ghost use Rattle.dump_format.specs.calls.Noting.{in_place_of, seen_noting, value_noting, frame_noting, stack_noting};

use crate::dump::{Frame, Frames};
use std::alloc::Global;
use wasm_bytes::{ItemFault, Malformed, Noted, Noting, Reader, noted_vector};
use wasm_syntax::{Seen, Value};

/// A value that holds no float.
fn known<T>(value: T) -> Noted<T>
    ensures { result ≡ plain value }
{
    Noted { value, float: None }
}

/// What stands in the place of a float at this offset.
fn absent<T>(value: T, at: usize) -> Noted<T>
    ensures { result ≡ in_place_of value at }
{
    Noted {
        value,
        float: Some(at),
    }
}

/// Values as a frame shows them.
pub struct SeenValues;

/// A value behind its tag.
impl<'a> Noting<Reader<'a>> for SeenValues {
    type Value = Seen;

    ghost item = { seen_noting };

    #[tactic(auto, unfolding(wasm_bytes::specs::Reading::choose, wasm_bytes::specs::Reading::here_item, crate::specs::Form::value_item, crate::specs::calls::Noting::seen_noting))]
    fn read(_alloc: Global, reader: &mut Reader<'a>) -> Result<Noted<Seen>, ItemFault> {
        let at = reader.at();
        match reader.byte()? {
            0x01 => Ok(known(Seen::Missing)),
            0x7f => Ok(known(Seen::I32(reader.s32()?.cast_unsigned()))),
            0x7e => Ok(known(Seen::I64(reader.s64()?.cast_unsigned()))),
            0x7d => {
                reader.run(4)?;
                Ok(absent(Seen::Missing, at))
            }
            0x7c => {
                reader.run(8)?;
                Ok(absent(Seen::Missing, at))
            }
            _ => Err(ItemFault::At(at)),
        }
    }
}

/// The mutability of a global, which a dump does not tell again (Core 5.3.7).
#[tactic(auto, unfolding(wasm_bytes::specs::Reading::byte_item, wasm_bytes::specs::Reading::one_of_item, crate::specs::Form::mutability_item))]
fn mutability(reader: &mut Reader<'_>) -> Result<u8, Malformed>
    ensures item { Reads result reader.new (mutability_item reader.old) }
    ensures moves { OnOk result (Moves reader.old reader.new) }
{
    let at = reader.at();
    match reader.byte()? {
        flag @ (0x00 | 0x01) => Ok(flag),
        _ => Err(Malformed { at }),
    }
}

/// Globals: type, mutability and a constant of that type.
pub struct GlobalValues;

impl<'a> Noting<Reader<'a>> for GlobalValues {
    type Value = Value;

    ghost item = { value_noting };

    #[tactic(auto, unfolding(wasm_bytes::specs::Reading::choose, wasm_bytes::specs::Reading::here_item, crate::specs::Form::constant_item, crate::specs::Form::global_item, crate::specs::calls::Noting::value_noting))]
    fn read(_alloc: Global, reader: &mut Reader<'a>) -> Result<Noted<Value>, ItemFault> {
        let at = reader.at();
        let noted = match reader.byte()? {
            0x7f => {
                mutability(reader)?;
                reader.fixed(0x41)?;
                known(Value::I32(reader.s32()?.cast_unsigned()))
            }
            0x7e => {
                mutability(reader)?;
                reader.fixed(0x42)?;
                known(Value::I64(reader.s64()?.cast_unsigned()))
            }
            0x7d => {
                mutability(reader)?;
                reader.fixed(0x43)?;
                reader.run(4)?;
                absent(Value::I32(0), at)
            }
            0x7c => {
                mutability(reader)?;
                reader.fixed(0x44)?;
                reader.run(8)?;
                absent(Value::I32(0), at)
            }
            _ => return Err(ItemFault::At(at)),
        };
        reader.fixed(0x0b)?;
        Ok(noted)
    }
}

impl<'a> Noting<Reader<'a>> for Frame {
    type Value = Frame;

    ghost item = { frame_noting };

    #[tactic(auto, unfolding(crate::specs::Form::place_item, crate::specs::calls::Noting::frame_noting))]
    fn read(alloc: Global, reader: &mut Reader<'a>) -> Result<Noted<Frame>, ItemFault> {
        reader.fixed(0x00)?;
        let instance = reader.u32()?;
        let function = reader.u32()?;
        let offset = reader.u32()?;
        let locals = noted_vector::<_, SeenValues>(alloc, reader)?;
        let operands = noted_vector::<_, SeenValues>(alloc, reader)?;
        Ok(Noted {
            value: Frame {
                instance,
                function,
                offset,
                locals: locals.value,
                operands: operands.value,
            },
            float: locals.float.or(operands.float),
        })
    }
}

/// The stack of a thread: its name, which is not kept, and its frames.
#[tactic(auto, unfolding(crate::specs::Form::thread_item, crate::specs::calls::Noting::stack_noting))]
pub fn stack<'a>(alloc: Global, reader: &mut Reader<'a>) -> Result<Noted<Frames>, ItemFault>
    ensures item { Gives result reader.new (stack_noting reader.old) }
    ensures moves { OnOk result (Moves reader.old reader.new) }
{
    reader.fixed(0x00)?;
    reader.name()?;
    noted_vector::<_, Frame>(alloc, reader)
}

//! The parts of a dump in their shortest spellings (Core 5.2).

ghost use Rattle.std.specs.Prelude.{◌≡◌, ◌++◌, ◌^◌, ◌<◌, ℕ, List, OnOk, All};
ghost use Rattle.std.specs.Str.{IsUtf8};
ghost use Rattle.dump_write.specs.Spelled.{name_bytes, vector_bytes, module_bytes, seen_bytes, frame_bytes};
ghost use Rattle.dump_write.specs.Spelled.{global_bytes};
ghost use Rattle.dump_write.specs.calls.Typed.{IsSeenTyped, IsFrameTyped};
ghost use Rattle.wasm_syntax.specs.Numbers.{IsValue};

use causes::NoMemory;
use dump_format::Frame;
use wasm_leb::{write_s32, write_s64, write_u32, write_u64};
use wasm_syntax::{Seen, Value};

/// A value that is appended to bytes in its shortest spelling.
pub trait Encode {
    ghost bytes: { Self → List ℕ };

    /// What its type says of it.
    ghost IsTyped: { Self → Type 0 };

    /// Appends the bytes. Where memory runs out, a part of them may stand at the end.
    fn encode(&self, out: &mut Vec<u8>) -> Result<(), NoMemory>
        ensures bytes { OnOk result (out.new.items ≡ out.old.items ++ bytes self.now) }
        ensures typed { OnOk result (IsTyped self.now) };
}

impl Encode for u32 {
    ghost use Rattle.wasm_leb.specs.Writing.{unsigned_bytes};

    ghost bytes = { unsigned_bytes };

    ghost IsTyped = { λ n. n < 2 ^ 32 };

    fn encode(&self, out: &mut Vec<u8>) -> Result<(), NoMemory> {
        write_u32(out, *self)
    }
}

impl Encode for Seen {
    ghost bytes = { seen_bytes };

    ghost IsTyped = { IsSeenTyped };

    #[tactic(auto, unfolding(crate::specs::Spelled::seen_bytes))]
    fn encode(&self, out: &mut Vec<u8>) -> Result<(), NoMemory> {
        match self {
            Seen::I32(bits) => {
                out.push(0x7f)?;
                write_s32(out, bits.cast_signed())
            }
            Seen::I64(bits) => {
                out.push(0x7e)?;
                write_s64(out, bits.cast_signed())
            }
            Seen::Missing => {
                out.push(0x01)?;
                Ok(())
            }
        }
    }
}

impl Encode for Value {
    ghost bytes = { global_bytes };

    ghost IsTyped = { IsValue };

    /// A constant global of this value (Core 5.5.9).
    #[tactic(auto, unfolding(crate::specs::Spelled::global_bytes))]
    fn encode(&self, out: &mut Vec<u8>) -> Result<(), NoMemory> {
        match self {
            Value::I32(bits) => {
                out.extend_from_slice(&[0x7f, 0x00, 0x41])?;
                write_s32(out, bits.cast_signed())?;
            }
            Value::I64(bits) => {
                out.extend_from_slice(&[0x7e, 0x00, 0x42])?;
                write_s64(out, bits.cast_signed())?;
            }
        }
        out.push(0x0b)?;
        Ok(())
    }
}

/// A vector: a count and its elements (Core 5.1.3).
#[tactic(auto, unfolding(crate::specs::Spelled::vector_bytes))]
pub fn encode_vector<T: Encode>(out: &mut Vec<u8>, items: &[T]) -> Result<(), NoMemory>
    ensures bytes { OnOk result (out.new.items ≡ out.old.items ++ vector_bytes T.bytes items.now) }
    ensures typed { OnOk result (All T.IsTyped items.now) }
{
    write_u64(out, items.len() as u64)?;
    for item in items {
        item.encode(out)?;
    }
    Ok(())
}

/// A name: its length and its bytes (Core 5.2.4).
#[tactic(auto, unfolding(crate::specs::Spelled::name_bytes))]
pub fn encode_name(out: &mut Vec<u8>, name: &str) -> Result<(), NoMemory>
    ensures { OnOk result (out.new.items ≡ out.old.items ++ name_bytes name.now) }
{
    write_u64(out, name.len() as u64)?;
    out.extend_from_slice(name.as_bytes())?;
    Ok(())
}

/// A module, the program or a thread: a zero byte and its name.
#[tactic(auto, unfolding(crate::specs::Spelled::module_bytes))]
pub fn encode_module(out: &mut Vec<u8>, name: &str) -> Result<(), NoMemory>
    ensures { OnOk result (out.new.items ≡ out.old.items ++ module_bytes name.now) }
{
    out.push(0x00)?;
    encode_name(out, name)
}

impl Encode for Frame {
    ghost bytes = { frame_bytes };

    ghost IsTyped = { IsFrameTyped };

    /// A frame of the one instance, which has the index 0.
    #[tactic(auto, unfolding(crate::specs::Spelled::frame_bytes))]
    fn encode(&self, out: &mut Vec<u8>) -> Result<(), NoMemory> {
        out.extend_from_slice(&[0x00, 0x00])?;
        self.function.encode(out)?;
        self.offset.encode(out)?;
        encode_vector(out, self.locals.as_slice())?;
        encode_vector(out, self.operands.as_slice())
    }
}

//! Values that stand in vectors, and what is written of them.

ghost use Rattle.std.specs.Prelude.{◌≡◌, ◌++◌, ℕ, List, OnOk, length};
ghost use Rattle.std.specs.List.{AllByRecursion};
ghost use Rattle.wasm_leb.specs.Writing.{unsigned_bytes};
ghost use Rattle.wasm_encode.specs.Encoding.{vector_bytes, sized_bytes};
ghost use Rattle.wasm_encode.specs.calls.Fits.{Fits32};

use causes::NoMemory;
use std::alloc::Global;
use wasm_leb::{write_u32, write_u64};

/// A type whose values have an encoding. A value may have to meet a condition to be written.
pub trait Item {
    ghost bytes: { Self → List ℕ };

    ghost complete: { Self → Type 0 } = { λ x. Unit {0} };

    /// The numbers in a value have the widths of their types.
    ghost fits: { Self → Type 0 } = { λ x. Unit {0} };

    /// Appends the encoding. Where memory runs out, the bytes may have a part of it at their end.
    fn write(&self, alloc: Global, out: &mut Vec<u8>) -> Result<(), NoMemory>
        requires complete { complete self.now }
        ensures exact { OnOk result (out.new.items ≡ out.old.items ++ bytes self.now) }
        ensures fits { OnOk result (fits self.now) };
}

/// An index (Core 5.5.1).
impl Item for u32 {
    ghost bytes = { unsigned_bytes };

    ghost fits = { Fits32 };

    fn write(&self, _alloc: Global, out: &mut Vec<u8>) -> Result<(), NoMemory> {
        write_u32(out, *self)
    }
}

/// Appends a count or a size. Below 2^32 it is spelled as an unsigned 32-bit number (Core 5.2.2).
pub fn write_len(out: &mut Vec<u8>, len: usize) -> Result<(), NoMemory>
    ensures { OnOk result (out.new.items ≡ out.old.items ++ unsigned_bytes len) }
{
    write_u64(out, len as u64)
}

/// Appends the length of the bytes, and the bytes.
pub fn write_sized(out: &mut Vec<u8>, contents: &[u8]) -> Result<(), NoMemory>
    ensures { OnOk result (out.new.items ≡ out.old.items ++ sized_bytes contents.now) }
{
    write_len(out, contents.len())?;
    out.extend_from_slice(contents)?;
    Ok(())
}

/// Appends a count, and the elements (Core 5.1.3).
pub fn write_vector<T: Item>(alloc: Global, out: &mut Vec<u8>, items: &[T]) -> Result<(), NoMemory>
    requires complete { AllByRecursion T.complete items.now }
    ensures exact { OnOk result (out.new.items ≡ out.old.items ++ vector_bytes T.bytes items.now) }
    ensures fits { OnOk result (AllByRecursion T.fits items.now) }
{
    write_len(out, items.len())?;
    for item in items {
        item.write(alloc, out)?;
    }
    Ok(())
}

//! Writing numbers.

ghost use Rattle.std.specs.Prelude.{◌≡◌, ◌++◌, ◌<◌, length, take, OnOk, OnErr};
ghost use Rattle.wasm_leb.specs.calls.Numbers.{IsUnsigned, IsSigned, AppendsShortest};
ghost use Rattle.wasm_leb.specs.Writing.{unsigned_bytes, low_seven, above_seven, fits_seven, signed_bytes};

use causes::NoMemory;

/// Appends the shortest spelling. Where memory runs out, the bytes may have a part of it at their
/// end.
#[tactic(auto, using(crate::proofs::UnsignedBytes::one_byte, crate::proofs::UnsignedBytes::more_bytes))]
fn push_unsigned(out: &mut Vec<u8>, v: u64) -> Result<(), NoMemory>
    ensures exact { OnOk result (out.new.items ≡ out.old.items ++ unsigned_bytes v) }
    ensures front { take (length out.old.items) out.new.items ≡ out.old.items }
{
    let low = (v % 128) as u8;
    if v < 128 {
        out.push(low)?;
        return Ok(());
    }
    out.push(low + 128)?;
    push_unsigned(out, v / 128)
}

/// Appends the shortest spelling, or leaves the bytes as they were.
fn append_unsigned(out: &mut Vec<u8>, v: u64) -> Result<(), NoMemory>
    ensures exact { OnOk result (out.new.items ≡ out.old.items ++ unsigned_bytes v) }
    ensures kept { OnErr result (out.new.items ≡ out.old.items) }
{
    let start = out.len();
    let done = push_unsigned(out, v);
    if done.is_err() {
        out.truncate(start);
    }
    done
}

/// Appends the shortest spelling of an unsigned 32-bit number (Core 5.2.2), or leaves the bytes as
/// they were.
pub fn write_u32(out: &mut Vec<u8>, v: u32) -> Result<(), NoMemory>
    ensures exact { OnOk result (out.new.items ≡ out.old.items ++ unsigned_bytes v) }
    ensures shortest { OnOk result (AppendsShortest (IsUnsigned 32) out.old.items out.new.items v) }
    ensures kept { OnErr result (out.new.items ≡ out.old.items) }
{
    append_unsigned(out, u64::from(v))
}

/// Appends the shortest spelling of an unsigned 64-bit number (Core 5.2.2), or leaves the bytes as
/// they were.
pub fn write_u64(out: &mut Vec<u8>, v: u64) -> Result<(), NoMemory>
    ensures exact { OnOk result (out.new.items ≡ out.old.items ++ unsigned_bytes v) }
    ensures shortest { OnOk result (AppendsShortest (IsUnsigned 64) out.old.items out.new.items v) }
    ensures kept { OnErr result (out.new.items ≡ out.old.items) }
{
    append_unsigned(out, v)
}

/// The low seven bits in two's complement.
fn low_seven(v: i64) -> u8
    ensures exact { result ≡ low_seven v }
    ensures small { result < 128 }
{
    v.rem_euclid(128) as u8
}

/// The number that the bits above the low seven make.
fn above_seven(v: i64) -> i64
    ensures { result ≡ above_seven v }
{
    v >> 7
}

/// Seven bits in two's complement hold the number.
fn fits_seven(v: i64) -> bool
    ensures { result ≡ fits_seven v }
{
    -64 <= v && v < 64
}

/// Appends the shortest spelling. Where memory runs out, the bytes may have a part of it at their
/// end.
fn push_signed(out: &mut Vec<u8>, v: i64) -> Result<(), NoMemory>
    ensures exact { OnOk result (out.new.items ≡ out.old.items ++ signed_bytes v) }
    ensures front { take (length out.old.items) out.new.items ≡ out.old.items }
{
    let low = low_seven(v);
    if fits_seven(v) {
        out.push(low)?;
        return Ok(());
    }
    out.push(low + 128)?;
    push_signed(out, above_seven(v))
}

/// Appends the shortest spelling, or leaves the bytes as they were.
fn append_signed(out: &mut Vec<u8>, v: i64) -> Result<(), NoMemory>
    ensures exact { OnOk result (out.new.items ≡ out.old.items ++ signed_bytes v) }
    ensures kept { OnErr result (out.new.items ≡ out.old.items) }
{
    let start = out.len();
    let done = push_signed(out, v);
    if done.is_err() {
        out.truncate(start);
    }
    done
}

/// Appends the shortest spelling of a signed 32-bit number (Core 5.2.2), or leaves the bytes as
/// they were.
pub fn write_s32(out: &mut Vec<u8>, v: i32) -> Result<(), NoMemory>
    ensures exact { OnOk result (out.new.items ≡ out.old.items ++ signed_bytes v) }
    ensures shortest { OnOk result (AppendsShortest (IsSigned 32) out.old.items out.new.items v) }
    ensures kept { OnErr result (out.new.items ≡ out.old.items) }
{
    append_signed(out, i64::from(v))
}

/// Appends the shortest spelling of a signed 64-bit number (Core 5.2.2), or leaves the bytes as
/// they were.
pub fn write_s64(out: &mut Vec<u8>, v: i64) -> Result<(), NoMemory>
    ensures exact { OnOk result (out.new.items ≡ out.old.items ++ signed_bytes v) }
    ensures shortest { OnOk result (AppendsShortest (IsSigned 64) out.old.items out.new.items v) }
    ensures kept { OnErr result (out.new.items ≡ out.old.items) }
{
    append_signed(out, v)
}

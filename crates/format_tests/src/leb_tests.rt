//! Numbers in LEB128.

use std::test::Fail;
use wasm_leb::{
    LebFault, read_s32, read_s64, read_u32, read_u64, write_s32, write_s64, write_u32, write_u64,
};

/// 2^64 - 1 and -2^63, and the two worked examples that texts on LEB128 give.
const SHORTEST: [u8; 26] = [
    0xFF, 0xFF, 0xFF, 0xFF, 0xFF, 0xFF, 0xFF, 0xFF, 0xFF, 0x01, 0x80, 0x80, 0x80, 0x80, 0x80, 0x80,
    0x80, 0x80, 0x80, 0x7F, 0xE5, 0x8E, 0x26, 0xC0, 0xBB, 0x78,
];

#[test]
fn writes_the_shortest(rt: HostRuntime) -> Result<(), Fail> {
    let mut out = Vec::new(rt.alloc());
    write_u64(&mut out, u64::MAX)?;
    write_s64(&mut out, i64::MIN)?;
    write_u32(&mut out, 624_485)?;
    write_s32(&mut out, -123_456)?;
    assert!(rt; out.as_slice() == SHORTEST.as_slice());
    Ok(())
}

/// Bytes, an offset, and what is read there: the number and the offset behind it, or why there is
/// none.
type Row<T> = (&'static [u8], usize, Result<(T, usize), LebFault>);

/// DWARF 4, 7.6, has 128, 12857, -128 and -129. By Core 5.2.2, 03 and 83 00 are both 3; 7E, FE 7F
/// and FE FF 7F are all -2; 83 10 is no u8, and 83 3E and FF 7B are no s8, since bits that are not
/// used are set. The same at 32 and 64 bits.
const U32: [Row<u32>; 4] = [
    (&[0x80, 0x01], 0, Ok((128, 2))),
    (&[0x83, 0x80, 0x80, 0x80, 0x00], 0, Ok((3, 5))),
    (&[0x83, 0x80, 0x80, 0x80, 0x10], 0, Err(LebFault::TooLong)),
    (&[0x80, 0x80], 1, Err(LebFault::Truncated)),
];

const LONG: [u8; 10] = [0x80, 0x80, 0x80, 0x80, 0x80, 0x80, 0x80, 0x80, 0x80, 0x02];

const U64: [Row<u64>; 3] = [
    (&[0x00, 0xB9, 0x64], 1, Ok((12_857, 3))),
    (&LONG, 0, Err(LebFault::TooLong)),
    (&LONG, 6, Ok((0x40_0000, 10))),
];

const S32: [Row<i32>; 5] = [
    (&[0x80, 0x7F], 0, Ok((-128, 2))),
    (&[0xFE, 0xFF, 0x7F], 0, Ok((-2, 3))),
    (&[0x83, 0x80, 0x80, 0x80, 0x08], 0, Err(LebFault::TooLong)),
    (&[0xFF, 0xFF, 0xFF, 0xFF, 0x4F], 0, Err(LebFault::TooLong)),
    (&[], 0, Err(LebFault::Truncated)),
];

const S64: [Row<i64>; 2] = [
    (&[0xFF, 0x7E], 0, Ok((-129, 2))),
    (&LONG, 0, Err(LebFault::TooLong)),
];

fn is_u32(row: &Row<u32>) -> bool {
    row.1 <= row.0.len() && read_u32(row.0, row.1) == row.2
}

fn is_u64(row: &Row<u64>) -> bool {
    row.1 <= row.0.len() && read_u64(row.0, row.1) == row.2
}

fn is_s32(row: &Row<i32>) -> bool {
    row.1 <= row.0.len() && read_s32(row.0, row.1) == row.2
}

fn is_s64(row: &Row<i64>) -> bool {
    row.1 <= row.0.len() && read_s64(row.0, row.1) == row.2
}

#[test]
fn unsigned_numbers(rt: HostRuntime) {
    assert!(rt; U32.iter().all(|row| is_u32(row)) && U64.iter().all(|row| is_u64(row)));
}

#[test]
fn signed_numbers(rt: HostRuntime) {
    assert!(rt; S32.iter().all(|row| is_s32(row)) && S64.iter().all(|row| is_s64(row)));
}

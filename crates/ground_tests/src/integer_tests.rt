//! Outside vectors.

use int_ops::*;

// The rows are those of the specification's own tests (i32.wast, i64.wast), and a few by hand.

const TWO_I32: [(Binary, u32, u32, Result<u32, ArithTrap>); 35] = [
    (Binary::Add, 0x7FFF_FFFF, 1, Ok(0x8000_0000)),
    (Binary::Sub, 0x8000_0000, 1, Ok(0x7FFF_FFFF)),
    (Binary::Mul, 0x0123_4567, 0x7654_3210, Ok(0x358E_7470)),
    (Binary::DivS, 1, 0, Err(ArithTrap::DivideByZero)),
    (
        Binary::DivS,
        0x8000_0000,
        0xFFFF_FFFF,
        Err(ArithTrap::Overflow),
    ),
    (Binary::DivS, 0x8000_0000, 0, Err(ArithTrap::DivideByZero)),
    (Binary::DivS, 0x8000_0001, 1000, Ok(0xFFDF_3B65)),
    (Binary::DivS, 0xFFFF_FFFB, 2, Ok(0xFFFF_FFFE)),
    (Binary::DivU, 0x8FF0_0FF0, 0x0001_0001, Ok(0x8FEF)),
    (Binary::DivU, 0xFFFF_FFFB, 2, Ok(0x7FFF_FFFD)),
    (Binary::DivU, 1, 0, Err(ArithTrap::DivideByZero)),
    (Binary::DivU, 0x8000_0000, 0xFFFF_FFFF, Ok(0)),
    (Binary::RemS, 0x8000_0000, 0xFFFF_FFFF, Ok(0)),
    (Binary::RemS, 0x8000_0001, 1000, Ok(0xFFFF_FD79)),
    (Binary::RemS, 5, 0xFFFF_FFFE, Ok(1)),
    (Binary::RemS, 1, 0, Err(ArithTrap::DivideByZero)),
    (Binary::RemU, 0x8000_0001, 1000, Ok(649)),
    (Binary::RemU, 0x8000_0000, 0xFFFF_FFFF, Ok(0x8000_0000)),
    (Binary::RemU, 1, 0, Err(ArithTrap::DivideByZero)),
    (Binary::And, 0xF0F0_FFFF, 0xFFFF_F0F0, Ok(0xF0F0_F0F0)),
    (Binary::Or, 0xF0F0_FFFF, 0xFFFF_F0F0, Ok(0xFFFF_FFFF)),
    (Binary::Xor, 0xF0F0_FFFF, 0xFFFF_F0F0, Ok(0x0F0F_0F0F)),
    (Binary::Shl, 1, 33, Ok(2)),
    (Binary::Shl, 1, 0x7FFF_FFFF, Ok(0x8000_0000)),
    (Binary::ShrS, 0x8000_0000, 31, Ok(0xFFFF_FFFF)),
    (Binary::ShrS, 0x8000_0000, 1, Ok(0xC000_0000)),
    (Binary::ShrU, 0xFFFF_FFFF, 33, Ok(0x7FFF_FFFF)),
    (Binary::ShrU, 0x8000_0000, 31, Ok(1)),
    (Binary::Rotl, 0xABCD_9876, 1, Ok(0x579B_30ED)),
    (Binary::Rotl, 0x8000, 37, Ok(0x0010_0000)),
    (Binary::Rotl, 0x769A_BCDF, 0xFFFF_FFED, Ok(0x579B_EED3)),
    (Binary::Rotl, 0xABCD_9876, 32, Ok(0xABCD_9876)),
    (Binary::Rotr, 0xFF00_CC00, 1, Ok(0x7F80_6600)),
    (Binary::Rotr, 0xB0C1_D2E3, 0x0000_FF05, Ok(0x1D86_0E97)),
    (Binary::Rotr, 0x769A_BCDF, 0xFFFF_FFED, Ok(0xE6FB_B4D5)),
];

fn are_i32(rows: &[(Binary, u32, u32, Result<u32, ArithTrap>)]) -> bool {
    for row in rows {
        if i32_binary(row.0, row.1, row.2) != row.3 {
            return false;
        }
    }
    true
}

const TWO_I64: [(Binary, u64, u64, Result<u64, ArithTrap>); 23] = [
    (
        Binary::Add,
        0x7FFF_FFFF_FFFF_FFFF,
        1,
        Ok(0x8000_0000_0000_0000),
    ),
    (
        Binary::Sub,
        0x8000_0000_0000_0000,
        1,
        Ok(0x7FFF_FFFF_FFFF_FFFF),
    ),
    (
        Binary::Mul,
        0x0123_4567_89AB_CDEF,
        0xFEDC_BA98_7654_3210,
        Ok(0x2236_D88F_E561_8CF0),
    ),
    (Binary::DivS, 1, 0, Err(ArithTrap::DivideByZero)),
    (
        Binary::DivS,
        0x8000_0000_0000_0000,
        0xFFFF_FFFF_FFFF_FFFF,
        Err(ArithTrap::Overflow),
    ),
    (
        Binary::DivS,
        0x8000_0000_0000_0001,
        1000,
        Ok(0xFFDF_3B64_5A1C_AC09),
    ),
    (
        Binary::DivU,
        0x8FF0_0FF0_0FF0_0FF0,
        0x0000_0001_0000_0001,
        Ok(0x0000_0000_8FF0_0FEF),
    ),
    (Binary::DivU, 1, 0, Err(ArithTrap::DivideByZero)),
    (
        Binary::RemS,
        0x8000_0000_0000_0000,
        0xFFFF_FFFF_FFFF_FFFF,
        Ok(0),
    ),
    (
        Binary::RemS,
        0x8000_0000_0000_0001,
        1000,
        Ok(0xFFFF_FFFF_FFFF_FCD9),
    ),
    (Binary::RemS, 1, 0, Err(ArithTrap::DivideByZero)),
    (
        Binary::RemU,
        0x8FF0_0FF0_0FF0_0FF0,
        0x0000_0001_0000_0001,
        Ok(0x0000_0000_8000_0001),
    ),
    (Binary::RemU, 1, 0, Err(ArithTrap::DivideByZero)),
    (
        Binary::And,
        0x0000_0000_F0F0_FFFF,
        0x0000_0000_FFFF_F0F0,
        Ok(0x0000_0000_F0F0_F0F0),
    ),
    (
        Binary::Or,
        0x0000_0000_F0F0_FFFF,
        0x0000_0000_FFFF_F0F0,
        Ok(0x0000_0000_FFFF_FFFF),
    ),
    (
        Binary::Xor,
        0x0000_0000_F0F0_FFFF,
        0x0000_0000_FFFF_F0F0,
        Ok(0x0000_0000_0F0F_0F0F),
    ),
    (Binary::Shl, 1, 65, Ok(2)),
    (
        Binary::ShrS,
        0x8000_0000_0000_0000,
        63,
        Ok(0xFFFF_FFFF_FFFF_FFFF),
    ),
    (
        Binary::ShrU,
        0xFFFF_FFFF_FFFF_FFFF,
        65,
        Ok(0x7FFF_FFFF_FFFF_FFFF),
    ),
    (
        Binary::Rotl,
        0xABCD_9876_0246_8ACE,
        1,
        Ok(0x579B_30EC_048D_159D),
    ),
    (
        Binary::Rotl,
        0xABCD_1234_EF56_7809,
        53,
        Ok(0x0135_79A2_469D_EACF),
    ),
    (
        Binary::Rotr,
        0xABCD_9876_0246_8ACE,
        1,
        Ok(0x55E6_CC3B_0123_4567),
    ),
    (
        Binary::Rotr,
        0xABCD_9876_0246_8ACE,
        64,
        Ok(0xABCD_9876_0246_8ACE),
    ),
];

fn are_i64(rows: &[(Binary, u64, u64, Result<u64, ArithTrap>)]) -> bool {
    for row in rows {
        if i64_binary(row.0, row.1, row.2) != row.3 {
            return false;
        }
    }
    true
}

#[test]
fn two_integers(rt: HostRuntime) {
    assert!(rt; are_i32(&TWO_I32) && are_i64(&TWO_I64));
}

/// An integer; its leading zeros, its trailing zeros, and its ones.
const ONE_I32: [(u32, u32, u32, u32); 4] = [
    (0, 32, 32, 0),
    (0x8000, 16, 15, 1),
    (0xFF, 24, 0, 8),
    (0xDEAD_BEEF, 0, 0, 24),
];

const ONE_I64: [(u64, u64, u64, u64); 4] = [
    (0, 64, 64, 0),
    (0x8000, 48, 15, 1),
    (0xFF, 56, 0, 8),
    (0xDEAD_BEEF_DEAD_BEEF, 0, 0, 48),
];

fn count_i32(rows: &[(u32, u32, u32, u32)]) -> bool {
    for row in rows {
        if i32_unary(Unary::Clz, row.0) != row.1
            || i32_unary(Unary::Ctz, row.0) != row.2
            || i32_unary(Unary::Popcnt, row.0) != row.3
        {
            return false;
        }
    }
    true
}

fn count_i64(rows: &[(u64, u64, u64, u64)]) -> bool {
    for row in rows {
        if i64_unary(Unary::Clz, row.0) != row.1
            || i64_unary(Unary::Ctz, row.0) != row.2
            || i64_unary(Unary::Popcnt, row.0) != row.3
        {
            return false;
        }
    }
    true
}

#[test]
fn one_integer(rt: HostRuntime) {
    assert!(rt; count_i32(&ONE_I32) && count_i64(&ONE_I64));
}

/// Comparisons of the least signed number with the greatest, and what they give.
const COMPARISONS: [(Compare, bool); 10] = [
    (Compare::LtS, true),
    (Compare::LeS, true),
    (Compare::GtU, true),
    (Compare::GeU, true),
    (Compare::Ne, true),
    (Compare::LtU, false),
    (Compare::LeU, false),
    (Compare::GtS, false),
    (Compare::GeS, false),
    (Compare::Eq, false),
];

fn are_compared(rows: &[(Compare, bool)]) -> bool {
    for row in rows {
        if i32_compare(row.0, 0x8000_0000, 0x7FFF_FFFF) != row.1
            || i64_compare(row.0, 0x8000_0000_0000_0000, 0x7FFF_FFFF_FFFF_FFFF) != row.1
        {
            return false;
        }
    }
    true
}

#[test]
fn comparisons(rt: HostRuntime) {
    assert!(rt; are_compared(&COMPARISONS));
}

const NARROW_32: [(Narrow32, u32, u32); 3] = [
    (Narrow32::Eight, 0xFEDC_BA80, 0xFFFF_FF80),
    (Narrow32::Eight, 0x0123_4500, 0),
    (Narrow32::Sixteen, 0x8000, 0xFFFF_8000),
];

const NARROW_64: [(Narrow64, u64, u64); 3] = [
    (Narrow64::Eight, 0xFF, 0xFFFF_FFFF_FFFF_FFFF),
    (Narrow64::Sixteen, 0x1234_7FFF, 0x7FFF),
    (
        Narrow64::ThirtyTwo,
        0xFEDC_BA98_8000_0000,
        0xFFFF_FFFF_8000_0000,
    ),
];

fn narrow_i32(rows: &[(Narrow32, u32, u32)]) -> bool {
    for row in rows {
        if i32_narrow(row.0, row.1) != row.2 {
            return false;
        }
    }
    true
}

fn narrow_i64(rows: &[(Narrow64, u64, u64)]) -> bool {
    for row in rows {
        if i64_narrow(row.0, row.1) != row.2 {
            return false;
        }
    }
    true
}

#[test]
fn conversions(rt: HostRuntime) {
    assert!(rt;
        wrap(0xFFFF_FFFF_8000_0001) == 0x8000_0001
            && extend_s(0x8000_0000) == 0xFFFF_FFFF_8000_0000
            && extend_u(0x8000_0000) == 0x8000_0000
    );
    assert!(rt; narrow_i32(&NARROW_32) && narrow_i64(&NARROW_64));
}

//! Tags of entries (DWARF 4 section 7.5.3; the same in DWARF 5).

pub const ARRAY: u64 = 0x01;

pub const CLASS: u64 = 0x02;

pub const ENUMERATION: u64 = 0x04;

pub const FORMAL_PARAMETER: u64 = 0x05;

pub const LEXICAL_BLOCK: u64 = 0x0b;

pub const MEMBER: u64 = 0x0d;

pub const POINTER: u64 = 0x0f;

pub const REFERENCE: u64 = 0x10;

pub const STRUCTURE: u64 = 0x13;

pub const TYPEDEF: u64 = 0x16;

pub const UNION: u64 = 0x17;

pub const INLINED_SUBROUTINE: u64 = 0x1d;

pub const SUBRANGE: u64 = 0x21;

pub const BASE: u64 = 0x24;

pub const CONST: u64 = 0x26;

pub const ENUMERATOR: u64 = 0x28;

pub const SUBPROGRAM: u64 = 0x2e;

pub const VARIABLE: u64 = 0x34;

pub const VOLATILE: u64 = 0x35;

pub const RESTRICT: u64 = 0x37;

pub const RVALUE_REFERENCE: u64 = 0x42;

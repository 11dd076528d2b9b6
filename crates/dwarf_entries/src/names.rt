//! Names of attributes (DWARF 4 section 7.5.4, DWARF 5 section 7.5.4).

pub const LOCATION: u64 = 0x02;

pub const NAME: u64 = 0x03;

pub const BYTE_SIZE: u64 = 0x0b;

pub const BIT_SIZE: u64 = 0x0d;

pub const STMT_LIST: u64 = 0x10;

pub const LOW_PC: u64 = 0x11;

pub const HIGH_PC: u64 = 0x12;

pub const CONST_VALUE: u64 = 0x1c;

pub const UPPER_BOUND: u64 = 0x2f;

pub const ABSTRACT_ORIGIN: u64 = 0x31;

pub const COUNT: u64 = 0x37;

pub const DATA_MEMBER_LOCATION: u64 = 0x38;

pub const ENCODING: u64 = 0x3e;

pub const FRAME_BASE: u64 = 0x40;

pub const SPECIFICATION: u64 = 0x47;

pub const TYPE: u64 = 0x49;

pub const RANGES: u64 = 0x55;

pub const DATA_BIT_OFFSET: u64 = 0x6b;

pub const STR_OFFSETS_BASE: u64 = 0x72;

pub const ADDR_BASE: u64 = 0x73;

pub const RNGLISTS_BASE: u64 = 0x74;

pub const LOCLISTS_BASE: u64 = 0x8c;

//! Programs of version 5. SMALL is written by hand, as a C compiler lays one out; ASSEMBLED was
//! made by an assembler (GNU binutils 2.40); FORMS is written by hand. Names and rows are those
//! that llvm-dwarfdump 14 prints, but that of a path or a directory which stands twice it takes the
//! last.

use dwarf_bytes::ReadFault;
use dwarf_info::{PreparedSections, Sections, Sections5};
use dwarf_line::{Directories, LineFile, Lines, Row};
use dwarf5_line::{read_lines5, scan_lines5, scans5};
use std::alloc::Global;

// A directory and two files, by strings. Rows at 2, 14, 21 and 43, end 49.
const SMALL: [u8; 70] = [
    0x42, 0x00, 0x00, 0x00, 0x05, 0x00, 0x04, 0x00, 0x28, 0x00, 0x00, 0x00, 0x01, 0x01, 0x01, 0xFB,
    0x0E, 0x0D, 0x00, 0x01, 0x01, 0x01, 0x01, 0x00, 0x00, 0x00, 0x01, 0x00, 0x00, 0x01, 0x01, 0x01,
    0x08, 0x01, 0x2F, 0x00, 0x02, 0x01, 0x08, 0x02, 0x0B, 0x02, 0x74, 0x2E, 0x63, 0x00, 0x00, 0x74,
    0x2E, 0x63, 0x00, 0x00, 0x00, 0x05, 0x02, 0x02, 0x00, 0x00, 0x00, 0x13, 0xBB, 0x75, 0x02, 0x16,
    0x13, 0x02, 0x06, 0x00, 0x01, 0x01,
];

// Two directories and three files, whose names stand in `.debug_line_str`. Rows at 36, 40, 44 and
// 348, end 349.
const ASSEMBLED: [u8; 94] = [
    0x5A, 0x00, 0x00, 0x00, 0x05, 0x00, 0x04, 0x00, 0x33, 0x00, 0x00, 0x00, 0x01, 0x01, 0x01, 0xFB,
    0x0E, 0x0D, 0x00, 0x01, 0x01, 0x01, 0x01, 0x00, 0x00, 0x00, 0x01, 0x00, 0x00, 0x01, 0x01, 0x01,
    0x1F, 0x02, 0x00, 0x00, 0x00, 0x00, 0x03, 0x00, 0x00, 0x00, 0x02, 0x01, 0x1F, 0x02, 0x0F, 0x03,
    0x07, 0x00, 0x00, 0x00, 0x00, 0x07, 0x00, 0x00, 0x00, 0x00, 0x0B, 0x00, 0x00, 0x00, 0x01, 0x00,
    0x05, 0x02, 0x24, 0x00, 0x00, 0x00, 0x14, 0x05, 0x07, 0x4B, 0x04, 0x02, 0x05, 0x01, 0x4F, 0x04,
    0x01, 0x05, 0x00, 0x03, 0x79, 0x02, 0xB0, 0x02, 0x01, 0x02, 0x01, 0x00, 0x01, 0x01,
];

const ASSEMBLED_NAMES: [u8; 15] = [
    0x2F, 0x73, 0x00, 0x69, 0x6E, 0x63, 0x00, 0x61, 0x2E, 0x63, 0x00, 0x62, 0x2E, 0x68, 0x00,
];

// A directory whose name stands in `.debug_str`, and a file with a checksum, a block of an unknown
// content type, two paths, two directories (of which the first is 2), a time and a length. No rows.
const FORMS: [u8; 95] = [
    0x5B, 0x00, 0x00, 0x00, 0x05, 0x00, 0x04, 0x00, 0x53, 0x00, 0x00, 0x00, 0x01, 0x01, 0x01, 0xFB,
    0x0E, 0x0D, 0x00, 0x01, 0x01, 0x01, 0x01, 0x00, 0x00, 0x00, 0x01, 0x00, 0x00, 0x01, 0x01, 0x01,
    0x0E, 0x01, 0x01, 0x00, 0x00, 0x00, 0x08, 0x05, 0x1E, 0x80, 0x40, 0x09, 0x01, 0x08, 0x01, 0x08,
    0x02, 0x05, 0x03, 0x06, 0x04, 0x07, 0x02, 0x0B, 0x01, 0x00, 0x01, 0x02, 0x03, 0x04, 0x05, 0x06,
    0x07, 0x08, 0x09, 0x0A, 0x0B, 0x0C, 0x0D, 0x0E, 0x0F, 0x02, 0xAA, 0xBB, 0x61, 0x00, 0x62, 0x00,
    0x02, 0x00, 0x01, 0x02, 0x03, 0x04, 0x01, 0x02, 0x03, 0x04, 0x05, 0x06, 0x07, 0x08, 0x01,
];

const FORMS_NAMES: [u8; 4] = [0x78, 0x2F, 0x64, 0x00];

// Bytes of SMALL that make it unreadable: the version, the sizes of an address and of a segment
// selector, operations of an instruction, no pairs but a directory, a form that is not in the list,
// and the length of the unit.
const BROKEN: [(usize, u8); 8] = [
    (4, 0x06),
    (6, 0x08),
    (7, 0x01),
    (13, 0x02),
    (30, 0x00),
    (32, 0x0C),
    (40, 0x0C),
    (0, 0x43),
];

// Two programs of version 3, of which the first has the header of the second in an opcode that is
// passed over, so that they have the opcodes behind it in common. Rows at 16 and 20, end 20.
const SHARING: [u8; 49] = [
    0x2D, 0x00, 0x00, 0x00, 0x03, 0x00, 0x07, 0x00, 0x00, 0x00, 0x01, 0x01, 0xFB, 0x0E, 0x01, 0x00,
    0x00, 0x00, 0x12, 0x80, 0x19, 0x00, 0x00, 0x00, 0x03, 0x00, 0x07, 0x00, 0x00, 0x00, 0x01, 0x01,
    0xFB, 0x0E, 0x01, 0x00, 0x00, 0x00, 0x05, 0x02, 0x10, 0x00, 0x00, 0x00, 0x01, 0x39, 0x00, 0x01,
    0x01,
];

// Offsets in it, and the bounds of the program there.
const BOUNDS: [(usize, Option<(u32, u32)>); 5] = [
    (0, Some((16, 20))),
    (20, Some((16, 20))),
    (20, Some((16, 20))),
    (17, None),
    (0, Some((16, 20))),
];

/// A program with its texts, and what it says.
pub struct Program {
    pub line: &'static [u8],
    pub str: &'static [u8],
    pub line_str: &'static [u8],
    pub told: Told,
}

/// What a program says.
pub struct Told {
    /// The number of the first directory and of the first file.
    pub first: u32,
    pub directories: &'static [&'static [u8]],
    /// Names, with the numbers of their directories.
    pub files: &'static [(&'static [u8], u64)],
    pub sequences: usize,
    /// Addresses, and the address, file, line and column of their rows.
    pub places: &'static [[u32; 5]],
    /// Addresses that no row holds.
    pub outside: &'static [u32],
}

const PROGRAMS: [Program; 3] = [
    Program {
        line: &SMALL,
        str: &[],
        line_str: &[],
        told: Told {
            first: 0,
            directories: &[b"/"],
            files: &[(b"t.c", 0), (b"t.c", 0)],
            sequences: 1,
            places: &[[45, 43, 1, 5, 0]],
            outside: &[49],
        },
    },
    Program {
        line: &ASSEMBLED,
        str: &[],
        line_str: &ASSEMBLED_NAMES,
        told: Told {
            first: 0,
            directories: &[b"/s", b"inc"],
            files: &[(b"a.c", 0), (b"a.c", 0), (b"b.h", 1)],
            sequences: 1,
            places: &[[347, 44, 2, 9, 1]],
            outside: &[],
        },
    },
    Program {
        line: &FORMS,
        str: &FORMS_NAMES,
        line_str: &[],
        told: Told {
            first: 0,
            directories: &[b"/d"],
            files: &[(b"a", 2)],
            sequences: 0,
            places: &[],
            outside: &[],
        },
    },
];

fn sections<'a>(line: &'a [u8], str: &'a [u8], line_str: &'a [u8]) -> Sections5<'a> {
    Sections5 {
        base: Sections {
            info: &[],
            abbrev: &[],
            line,
            str,
            loc: &[],
            ranges: &[],
        },
        line_str,
        str_offsets: &[],
        addr: &[],
        loclists: &[],
        rnglists: &[],
    }
}

fn are_names(directories: &Directories<'_>, names: &[&[u8]]) -> bool {
    if directories.len() != names.len() {
        return false;
    }
    for (directory, name) in directories.as_slice().iter().zip(names) {
        if directory.as_slice() != *name {
            return false;
        }
    }
    true
}

fn are_files(files: &[LineFile<'_>], rows: &[(&[u8], u64)]) -> bool {
    if files.len() != rows.len() {
        return false;
    }
    for (file, row) in files.iter().zip(rows) {
        if file.name.as_slice() != row.0 || file.directory != row.1 {
            return false;
        }
    }
    true
}

fn has_places(lines: &Lines<'_>, places: &[[u32; 5]]) -> bool {
    for place in places {
        let row = Row {
            address: place[1],
            file: place[2],
            line: place[3],
            column: place[4],
        };
        if lines.place(place[0]) != Some(row) {
            return false;
        }
    }
    true
}

fn holds_none(lines: &Lines<'_>, addresses: &[u32]) -> bool {
    for address in addresses {
        if lines.place(*address).is_some() {
            return false;
        }
    }
    true
}

/// Whether a program says this.
pub fn says(lines: &Lines<'_>, told: &Told) -> bool {
    lines.first == told.first
        && lines.sequences.len() == told.sequences
        && are_names(&lines.directories, told.directories)
        && are_files(lines.files.as_slice(), told.files)
        && has_places(lines, told.places)
        && holds_none(lines, told.outside)
}

fn is_read(alloc: Global, program: &Program) -> bool {
    let sections = sections(program.line, program.str, program.line_str);
    match read_lines5(alloc, &sections, 0) {
        Ok(lines) => says(&lines, &program.told),
        Err(_) => false,
    }
}

fn is_unreadable(alloc: Global, line: &[u8], line_str: &[u8]) -> bool {
    matches!(
        read_lines5(alloc, &sections(line, &[], line_str), 0),
        Err(ReadFault::Unreadable { at: 0 })
    )
}

/// SMALL is unreadable with this byte.
fn is_broken_by(alloc: Global, index: usize, byte: u8) -> bool {
    let mut bytes = SMALL;
    if index >= bytes.len() {
        return false;
    }
    bytes[index] = byte;
    is_unreadable(alloc, &bytes, &[])
}

/// These are the bounds of the programs at these offsets, scanned one after the other.
fn are_bounds(alloc: Global, line: &[u8], rows: &[(usize, Option<(u32, u32)>)]) -> bool {
    let Ok(prepared) = PreparedSections::new(alloc, &sections(line, &[], &[])) else {
        return false;
    };
    let mut scans = scans5(alloc, &prepared);
    for (at, bounds) in rows {
        match scan_lines5(alloc, &prepared, *at, &mut scans) {
            Ok(Some(hull)) if *bounds == Some((hull.first, hull.end)) => {}
            Ok(None) if bounds.is_none() => {}
            _ => return false,
        }
    }
    true
}

#[test]
fn programs_are_read_or_refused(rt: HostRuntime) {
    let alloc = rt.alloc();
    for program in &PROGRAMS {
        assert!(rt; is_read(alloc, program));
    }
    for len in 0..70 {
        assert!(rt; is_unreadable(alloc, &SMALL[..len], &[]));
    }
    for (index, byte) in &BROKEN {
        assert!(rt; is_broken_by(alloc, *index, *byte));
    }
    // The last name does not end, or does not begin.
    assert!(rt; is_unreadable(alloc, &ASSEMBLED, &ASSEMBLED_NAMES[..14]));
    assert!(rt; is_unreadable(alloc, &ASSEMBLED, &ASSEMBLED_NAMES[..11]));
}

#[test]
fn programs_are_scanned(rt: HostRuntime) {
    assert!(rt; are_bounds(rt.alloc(), &SHARING, &BOUNDS));
    assert!(rt; are_bounds(rt.alloc(), &SMALL, &[(0, Some((2, 49)))]));
}

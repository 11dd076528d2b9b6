//! Files of replies, line by line.

use crate::record_tests::{THREE, Told};
use host_replies::{ReplyFault, read_replies};
use std::alloc::Global;
use wasm_syntax::{Reply, Value, Write};

/// A file, and its replies.
type Row = (&'static [u8], &'static [Told<'static>]);

const ROWS: [Row; 2] = [
    (
        b"i32:9 16=01020304",
        &[(Some(Value::I32(9)), &[(16, &[1, 2, 3, 4])])],
    ),
    (
        b"# \xFF\r\n\r\nnone\r\ni64:-1   0=aB 4294967295=00\n#\ni32:4294967295\n",
        &[
            (None, &[]),
            (
                Some(Value::I64(u64::MAX)),
                &[(0, &[0xab]), (u32::MAX, &[0])],
            ),
            (Some(Value::I32(u32::MAX)), &[]),
        ],
    ),
];

/// The replies of a file that was recorded.
const RECORDED: [Told<'static>; 3] = [
    (None, &[]),
    (Some(Value::I32(9)), &[(16, &[1, 2]), (0, &[0xfe])]),
    (Some(Value::I64(u64::MAX - 1)), &[(u32::MAX, &[0])]),
];

fn are_writes(writes: &[Write], rows: &[(u32, &[u8])]) -> bool {
    for (write, row) in writes.iter().zip(rows.iter()) {
        if write.at != row.0 || write.bytes.as_slice() != row.1 {
            return false;
        }
    }
    writes.len() == rows.len()
}

fn are_replies(replies: &[Reply], rows: &[Told<'_>]) -> bool {
    for (reply, row) in replies.iter().zip(rows.iter()) {
        if reply.value != row.0 || !are_writes(reply.writes.as_slice(), row.1) {
            return false;
        }
    }
    replies.len() == rows.len()
}

fn is_read(alloc: Global, file: &[u8], rows: &[Told<'_>]) -> bool {
    match read_replies(alloc, file) {
        Ok(replies) => are_replies(replies.as_slice(), rows),
        Err(_) => false,
    }
}

/// A file, and the number of its first line that is outside the grammar.
const WRONG: [(&[u8], u64); 14] = [
    (b"i32:9 16=0", 1),
    (b"\n#\nnone x", 3),
    (b" none", 1),
    (b"none ", 1),
    (b"none\n\r", 2),
    (b"i32:4294967296", 1),
    (b"i32:+1", 1),
    (b"i33:1", 1),
    (b"none 4294967296=00", 1),
    (b"none 00000000001=00", 1),
    (b"none 1=", 1),
    (b"none =00", 1),
    (b"none 1=0g", 1),
    (b"none\nnone\t1=00\nx", 2),
];

fn is_refused(alloc: Global, row: &(&[u8], u64)) -> bool {
    match read_replies(alloc, row.0) {
        Err(ReplyFault::Line(line)) => line == row.1,
        _ => false,
    }
}

/// The number of the first file that is not read so, if there is one.
fn first_misread(alloc: Global, rows: &[Row]) -> Option<usize> {
    for (i, row) in rows.iter().enumerate() {
        if !is_read(alloc, row.0, row.1) {
            return Some(i);
        }
    }
    None
}

/// The number of the first file that is not refused so, if there is one.
fn first_not_refused(alloc: Global, rows: &[(&[u8], u64)]) -> Option<usize> {
    for (i, row) in rows.iter().enumerate() {
        if !is_refused(alloc, row) {
            return Some(i);
        }
    }
    None
}

#[test]
fn files_are_read_or_a_line_is_named(rt: HostRuntime) {
    assert_eq!(rt; first_misread(rt.alloc(), &ROWS), None);
    assert!(rt; is_read(rt.alloc(), THREE.as_bytes(), &RECORDED));
    assert_eq!(rt; first_not_refused(rt.alloc(), &WRONG), None);
}

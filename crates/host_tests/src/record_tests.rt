//! Records of replies.

use causes::NoMemory;
use host_replies::push_record;
use pm_text::{Bytes, Items, Text};
use std::alloc::Global;
use wasm_syntax::{Reply, Value, Write};

/// A reply: its value, and its writes.
pub type Told<'a> = (Option<Value>, &'a [(u32, &'a [u8])]);

fn writes_of(alloc: Global, rows: &[(u32, &[u8])]) -> Result<Items<Write>, NoMemory> {
    let mut writes = Items::new(alloc);
    for row in rows {
        writes.push(Write {
            at: row.0,
            bytes: Bytes::from_slice(alloc, row.1)?,
        })?;
    }
    Ok(writes)
}

fn replies_of(alloc: Global, rows: &[Told<'_>]) -> Result<Items<Reply>, NoMemory> {
    let mut replies = Items::new(alloc);
    for row in rows {
        replies.push(Reply {
            value: row.0,
            writes: writes_of(alloc, row.1)?,
        })?;
    }
    Ok(replies)
}

fn is_text(alloc: Global, replies: &[Reply], text: &str) -> bool {
    let mut out = Text::new(alloc);
    push_record(alloc, &mut out, replies).is_ok() && out.as_str() == text
}

/// Whether replies are recorded as this text.
fn is_recorded(alloc: Global, row: &(&[Told<'_>], &str)) -> bool {
    match replies_of(alloc, row.0) {
        Ok(replies) => is_text(alloc, replies.as_slice(), row.1),
        Err(_) => false,
    }
}

/// The text of three replies, with writes of no bytes among them.
pub const THREE: &str = "none\ni32:9 16=0102 0=fe\ni64:-2 4294967295=00\n";

/// Values are recorded signed, and writes of no bytes are left out.
const ROWS: [(&[Told<'static>], &str); 15] = [
    (&[(None, &[])], "none\n"),
    (&[(Some(Value::I32(0)), &[])], "i32:0\n"),
    (&[(Some(Value::I32(0x7fff_ffff)), &[])], "i32:2147483647\n"),
    (&[(Some(Value::I32(0x8000_0000)), &[])], "i32:-2147483648\n"),
    (&[(Some(Value::I32(0xffff_ffff)), &[])], "i32:-1\n"),
    (&[(Some(Value::I64(0xffff_ffff)), &[])], "i64:4294967295\n"),
    (
        &[(Some(Value::I64(i64::MAX as u64)), &[])],
        "i64:9223372036854775807\n",
    ),
    (
        &[(Some(Value::I64(1 << 63)), &[])],
        "i64:-9223372036854775808\n",
    ),
    (&[(Some(Value::I64(u64::MAX)), &[])], "i64:-1\n"),
    (
        &[(Some(Value::I32(9)), &[(16, &[1, 2, 3, 4])])],
        "i32:9 16=01020304\n",
    ),
    (&[(Some(Value::I32(9)), &[(16, &[])])], "i32:9\n"),
    (
        &[(Some(Value::I32(9)), &[(0, &[]), (7, &[0xff]), (8, &[])])],
        "i32:9 7=ff\n",
    ),
    (
        &[(Some(Value::I32(9)), &[(0, &[0xab]), (0, &[0xcd])])],
        "i32:9 0=ab 0=cd\n",
    ),
    (
        &[(Some(Value::I32(9)), &[(0xffff_ffff, &[0x0a, 0x0d, 0x20])])],
        "i32:9 4294967295=0a0d20\n",
    ),
    (
        &[
            (None, &[(5, &[])]),
            (
                Some(Value::I32(9)),
                &[(16, &[1, 2]), (3, &[]), (0, &[0xfe])],
            ),
            (Some(Value::I64(u64::MAX - 1)), &[(u32::MAX, &[0])]),
        ],
        THREE,
    ),
];

/// The number of the first row that does not hold, if there is one.
fn first_wrong(alloc: Global, rows: &[(&[Told<'_>], &str)]) -> Option<usize> {
    for (i, row) in rows.iter().enumerate() {
        if !is_recorded(alloc, row) {
            return Some(i);
        }
    }
    None
}

#[test]
fn replies_are_recorded(rt: HostRuntime) {
    assert_eq!(rt; first_wrong(rt.alloc(), &ROWS), None);
}

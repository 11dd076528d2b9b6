//! Texts, and numbers as texts.

use causes::NoMemory;
use pm_text::{Bytes, Items, Number, Text, Texts, read_decimal, read_value};
use std::alloc::Global;

/// A piece of a text.
enum Piece {
    Decimal(i128),
    /// A number, and how many digits it has at least.
    Hex(u64, u32),
    Plain(&'static [u8]),
    Quoted(&'static [u8]),
}

fn push(text: &mut Text, piece: &Piece) -> Result<(), NoMemory> {
    match piece {
        Piece::Decimal(number) => text.push_decimal(*number),
        Piece::Hex(number, digits) => text.push_hex(*number, *digits),
        Piece::Plain(bytes) => text.push_plain(bytes),
        Piece::Quoted(bytes) => text.push_quoted(bytes),
    }
}

const NUMBERS: [Piece; 11] = [
    Piece::Decimal(i128::MIN),
    Piece::Plain(b" "),
    Piece::Decimal(0),
    Piece::Plain(b" "),
    Piece::Hex(0xdead_beef, 8),
    Piece::Plain(b" "),
    Piece::Hex(10, 2),
    Piece::Plain(b" "),
    Piece::Hex(0, 0),
    Piece::Plain(b" "),
    Piece::Hex(u64::MAX, 8),
];

const NUMBERS_WRITTEN: &str =
    "-170141183460469231731687303715884105728 0 deadbeef 0a 0 ffffffffffffffff";

const NAMES: [Piece; 4] = [
    Piece::Quoted(b"a\"b\\c\n\x7f\xc3\xa9"),
    Piece::Plain(b"a\"b\\c\n\x7f\xc3\xa9"),
    Piece::Quoted(b"\x80A\"\xff"),
    Piece::Plain(b"\xc3"),
];

const NAMES_WRITTEN: &str = "\"a\\\"b\\\\c\\0a\\7fé\"a\"b\\\\c\\0a\\7fé\"\\80A\\\"\\ff\"\\c3";

fn are_written(alloc: Global, pieces: &[Piece], wanted: &str) -> bool {
    let mut text = Text::new(alloc);
    for piece in pieces {
        if push(&mut text, piece).is_err() {
            return false;
        }
    }
    text.as_str() == wanted
}

#[test]
fn numbers_and_names_are_written(rt: HostRuntime) {
    assert!(rt; are_written(rt.alloc(), &NUMBERS, NUMBERS_WRITTEN));
    assert!(rt; are_written(rt.alloc(), &NAMES, NAMES_WRITTEN));
}

/// `abc`, in two pieces.
fn abc(alloc: Global) -> Result<Text, NoMemory> {
    let mut text = Text::from_str(alloc, "ab")?;
    text.push_str("c")?;
    Ok(text)
}

fn is_pushed(alloc: Global, text: Text) -> bool {
    let mut texts = Texts::new(alloc);
    texts.push(text).is_ok() && texts.len() == 1
}

fn is_abc(alloc: Global, text: &Text) -> bool {
    text.as_bytes() == b"abc".as_slice()
        && text.len() == 3
        && !text.is_empty()
        && Text::from_str(alloc, "abc").as_ref() == Ok(text)
}

fn holds_texts(alloc: Global) -> bool {
    match abc(alloc) {
        Ok(text) => {
            let same = Text::from_string(text.into_string());
            is_abc(alloc, &same) && is_pushed(alloc, same)
        }
        Err(_) => false,
    }
}

/// Whether items that were 3 and 4 are added to, looked at and taken.
fn are_items(items: &mut Items<u16>) -> bool {
    items.push(5).is_ok()
        && items.get(2).copied() == Some(5)
        && items.get(3).is_none()
        && items.last().copied() == Some(5)
        && items.pop() == Some(5)
}

fn holds_items(alloc: Global) -> bool {
    match Vec::from_slice(alloc, &[3u16, 4]) {
        Ok(vec) => {
            let mut items = Items::from_vec(vec);
            if !are_items(&mut items) {
                return false;
            }
            items.truncate(1);
            items.as_slice() == [3].as_slice() && !items.is_empty() && items.into_vec().len() == 1
        }
        Err(_) => false,
    }
}

fn bytes(alloc: Global, front: &[u8], rest: &[u8]) -> Result<Bytes, NoMemory> {
    let mut bytes = Bytes::from_slice(alloc, front)?;
    bytes.extend_from_slice(rest)?;
    Ok(bytes)
}

fn holds_bytes(alloc: Global) -> bool {
    match bytes(alloc, b"ab", b"c") {
        Ok(made) => bytes(alloc, b"abc", b"").as_ref() == Ok(&made),
        Err(_) => false,
    }
}

#[test]
fn lists_hold_what_is_put_there(rt: HostRuntime) {
    assert!(rt; holds_texts(rt.alloc()) && holds_items(rt.alloc()) && holds_bytes(rt.alloc()));
}

const DECIMALS: [(&str, Option<u64>); 10] = [
    ("0", Some(0)),
    ("18446744073709551615", Some(u64::MAX)),
    ("18446744073709551616", None),
    ("00000000000000000007", Some(7)),
    ("000000000000000000007", None),
    ("", None),
    ("+1", None),
    ("-1", None),
    ("1 ", None),
    ("0x1", None),
];

/// Words, and whether each is a number of 64 bits in place of 32, with its bits.
const VALUES: [(&str, Option<(bool, u64)>); 16] = [
    ("i32:-1", Some((false, 0xffff_ffff))),
    ("i32:-2147483648", Some((false, 0x8000_0000))),
    ("i32:-2147483649", None),
    ("i32:4294967295", Some((false, 0xffff_ffff))),
    ("i32:4294967296", None),
    ("i32:-0", Some((false, 0))),
    ("i64:-1", Some((true, u64::MAX))),
    ("i64:-9223372036854775808", Some((true, 1 << 63))),
    ("i64:-9223372036854775809", None),
    ("i64:18446744073709551615", Some((true, u64::MAX))),
    ("i64:18446744073709551616", None),
    ("i64:--1", None),
    ("i64:-", None),
    ("i64:", None),
    ("i16:1", None),
    ("7", None),
];

fn is_value(number: Option<Number>, wanted: Option<(bool, u64)>) -> bool {
    match (number, wanted) {
        (Some(number), Some((wide, bits))) => number.wide == wide && number.bits == bits,
        (None, None) => true,
        _ => false,
    }
}

fn decimals_are_read(rows: &[(&str, Option<u64>)]) -> bool {
    for row in rows {
        if read_decimal(row.0) != row.1 {
            return false;
        }
    }
    true
}

fn values_are_read(rows: &[(&str, Option<(bool, u64)>)]) -> bool {
    for row in rows {
        if !is_value(read_value(row.0), row.1) {
            return false;
        }
    }
    true
}

#[test]
fn numbers_are_read(rt: HostRuntime) {
    assert!(rt; decimals_are_read(&DECIMALS) && values_are_read(&VALUES));
}

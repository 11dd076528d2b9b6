//! Names in texts: control bytes, backslashes and bytes that are no text are escaped.

ghost use Rattle.std.specs.Prelude.{◌≡◌, ◌<◌, ◌++◌, OnOk, encode_utf8};
ghost use Rattle.std.specs.List.{flat_map};
ghost use Rattle.std.specs.String.{string_bytes};
ghost use Rattle.pm_text.specs.inner.Extends.{Extends};
ghost use Rattle.pm_text.specs.Names.{marked_byte, outside_text, name_bytes, plain, quoted};

use crate::hex;
use std::alloc::AllocError;
use std::str;

/// What stands round a name.
#[derive(Clone, Copy)]
pub enum Marks {
    Bare,
    Quotation,
}

#[tactic(auto, unfolding(crate::specs::Names::marked_byte))]
fn write_ascii(out: &mut String, marks: Marks, b: u8) -> Result<(), AllocError>
    requires { b < 128 }
    ensures ok { OnOk result (string_bytes out.new ≡ string_bytes out.old ++ marked_byte marks b) }
    ensures extends { Extends (string_bytes out.old) (string_bytes out.new) }
{
    match (marks, b) {
        (Marks::Quotation, b'"') => out.push_str("\\\""),
        (_, b'\\') => out.push_str("\\\\"),
        (_, 0..0x20 | 0x7f) => hex::write_byte(out, b),
        _ => out.push(char::from(b)),
    }
}

#[tactic(auto, using(crate::proofs::NameLaws::char_ascii, crate::proofs::NameLaws::char_high))]
fn write_char(out: &mut String, marks: Marks, c: char) -> Result<(), AllocError>
    ensures ok { OnOk result (string_bytes out.new
        ≡ string_bytes out.old ++ flat_map (marked_byte marks) (encode_utf8 c)) }
    ensures extends { Extends (string_bytes out.old) (string_bytes out.new) }
{
    if c.is_ascii() {
        write_ascii(out, marks, c as u8)
    } else {
        out.push(c)
    }
}

fn write_byte(out: &mut String, marks: Marks, b: u8) -> Result<(), AllocError>
    ensures ok { OnOk result (string_bytes out.new
        ≡ string_bytes out.old ++ outside_text (marked_byte marks) b) }
    ensures extends { Extends (string_bytes out.old) (string_bytes out.new) }
{
    match b {
        0..0x80 => write_ascii(out, marks, b),
        _ => hex::write_byte(out, b),
    }
}

fn write_text(out: &mut String, marks: Marks, text: &str) -> Result<(), AllocError>
    ensures ok { OnOk result (string_bytes out.new
        ≡ string_bytes out.old ++ flat_map (marked_byte marks) text.now) }
    ensures extends { Extends (string_bytes out.old) (string_bytes out.new) }
{
    for c in text.chars() {
        write_char(out, marks, c)?;
    }
    Ok(())
}

fn write_bytes(out: &mut String, marks: Marks, bytes: &[u8]) -> Result<(), AllocError>
    ensures ok { OnOk result (string_bytes out.new
        ≡ string_bytes out.old ++ flat_map (outside_text (marked_byte marks)) bytes.now) }
    ensures extends { Extends (string_bytes out.old) (string_bytes out.new) }
{
    for b in bytes {
        write_byte(out, marks, *b)?;
    }
    Ok(())
}

#[tactic(auto, using(crate::proofs::NameLaws::name_of_text, crate::proofs::NameLaws::name_of_bytes))]
fn write_name(out: &mut String, marks: Marks, name: &[u8]) -> Result<(), AllocError>
    ensures ok { OnOk result (string_bytes out.new
        ≡ string_bytes out.old ++ name_bytes (marked_byte marks) name.now) }
    ensures extends { Extends (string_bytes out.old) (string_bytes out.new) }
{
    match str::from_utf8(name) {
        Ok(text) => write_text(out, marks, text),
        Err(_) => write_bytes(out, marks, name),
    }
}

/// Adds a name without marks.
#[tactic(auto, unfolding(crate::specs::Names::plain, crate::specs::Names::marked_byte))]
pub fn write_plain(out: &mut String, name: &[u8]) -> Result<(), AllocError>
    ensures ok { OnOk result (string_bytes out.new ≡ string_bytes out.old ++ plain name.now) }
    ensures extends { Extends (string_bytes out.old) (string_bytes out.new) }
{
    write_name(out, Marks::Bare, name)
}

/// Adds a name between quotation marks.
#[tactic(auto, unfolding(crate::specs::Names::quoted, crate::specs::Names::marked_byte))]
pub fn write_quoted(out: &mut String, name: &[u8]) -> Result<(), AllocError>
    ensures ok { OnOk result (string_bytes out.new ≡ string_bytes out.old ++ quoted name.now) }
    ensures extends { Extends (string_bytes out.old) (string_bytes out.new) }
{
    out.push('"')?;
    write_name(out, Marks::Quotation, name)?;
    out.push('"')
}

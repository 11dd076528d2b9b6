//! Hexadecimal digits in lower case.

ghost use Rattle.std.specs.Prelude.{◌≡◌, ◌<◌, ◌≤◌, ◌+◌, ◌/◌, ◌++◌, ◌∷◌, length, replicate, false, OnOk};
ghost use Rattle.std.specs.Fmt.{digits};
ghost use Rattle.std.specs.String.{string_bytes};
ghost use Rattle.pm_text.specs.inner.Extends.{Extends};
ghost use Rattle.pm_text.specs.Hex.{hex_digit, hex_byte, hex_padded};

use std::alloc::AllocError;

fn hex_digit(n: u64) -> char
    requires { n < 16 }
    ensures { result ≡ hex_digit n }
{
    match n {
        0..=9 => char::from(b'0' + n as u8),
        _ => char::from(b'a' + (n as u8 - 10)),
    }
}

/// Adds a backslash and the two digits of a byte.
pub fn write_byte(out: &mut String, b: u8) -> Result<(), AllocError>
    ensures ok { OnOk result (string_bytes out.new ≡ string_bytes out.old ++ 92 ∷ hex_byte b) }
    ensures extends { Extends (string_bytes out.old) (string_bytes out.new) }
{
    let b = u64::from(b);
    out.push('\\')?;
    out.push(hex_digit(b / 16))?;
    out.push(hex_digit(b % 16))
}

#[tactic(auto, using(crate::proofs::HexLaws::hex_one_len, crate::proofs::HexLaws::hex_step_len))]
fn digit_count(v: u64) -> u64
    ensures count { result ≡ length (digits 16 false v) }
    ensures small { result ≤ v / 16 + 1 }
{
    if v < 16 { 1 } else { digit_count(v / 16) + 1 }
}

#[tactic(auto, using(crate::proofs::HexLaws::hex_one, crate::proofs::HexLaws::hex_step, std::proofs::Common::append_assoc))]
fn write_digits(out: &mut String, v: u64) -> Result<(), AllocError>
    ensures ok { OnOk result (string_bytes out.new ≡ string_bytes out.old ++ digits 16 false v) }
    ensures extends { Extends (string_bytes out.old) (string_bytes out.new) }
{
    if v >= 16 {
        write_digits(out, v / 16)?;
    }
    out.push(hex_digit(v % 16))
}

fn write_zeros(out: &mut String, count: u64) -> Result<(), AllocError>
    ensures ok { OnOk result (string_bytes out.new ≡ string_bytes out.old ++ replicate count 48) }
    ensures extends { Extends (string_bytes out.old) (string_bytes out.new) }
{
    for _i in 0..count {
        out.push('0')?;
    }
    Ok(())
}

/// Adds the digits of a number, with zeros in front up to so many digits.
#[tactic(auto, unfolding(crate::specs::Hex::hex_padded))]
pub fn write_padded(out: &mut String, v: u64, count: u32) -> Result<(), AllocError>
    ensures ok { OnOk result (string_bytes out.new ≡ string_bytes out.old ++ hex_padded count v) }
    ensures extends { Extends (string_bytes out.old) (string_bytes out.new) }
{
    write_zeros(out, u64::from(count).saturating_sub(digit_count(v)))?;
    write_digits(out, v)
}

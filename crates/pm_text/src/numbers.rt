//! Texts that are read as numbers.

ghost use Rattle.std.specs.Prelude.{◌≡◌, ◌≤◌, true, false, drop, length, nat_eq, MatchOption};
ghost use Rattle.std.specs.List.{starts_with};
ghost use Rattle.pm_text.specs.Numbers.{decimal_value, positive_bits, negative_bits, integer_bits, number_value};

/// A number of 32 or 64 bits.
#[derive(Clone, Copy, Debug, PartialEq, Eq)]
pub struct Number {
    /// Whether it has 64 bits, and not 32.
    pub wide: bool,
    /// Its value modulo 2^64, or modulo 2^32.
    pub bits: u64,
}

/// The number that 1 to 20 decimal digits write, where it is below 2^64.
#[tactic(auto, unfolding(crate::specs::Numbers::decimal_value))]
pub fn read_decimal(s: &str) -> Option<u64>
    ensures { result ≡ decimal_value s.now }
{
    if s.len() > 20 || s.starts_with('+') {
        return None;
    }
    s.parse().ok()
}

/// What stands behind this front in a text.
#[tactic(auto, using(crate::proofs::NumberLaws::begins, crate::proofs::NumberLaws::begins_not))]
fn behind<'a>(s: &'a str, front: &str) -> Option<&'a str>
    ensures { MatchOption result (starts_with nat_eq s.now front.now ≡ false)
        (λ x. (starts_with nat_eq s.now front.now ≡ true)
        × (x.now ≡ drop (length front.now) s.now)) }
{
    s.strip_prefix(front)
}

fn positive_bits(n: u64, width: u32) -> Option<u64>
    requires { width ≤ 64 }
    ensures { result ≡ positive_bits width n }
{
    if u128::from(n) < 1 << width {
        Some(n)
    } else {
        None
    }
}

fn negative_bits(n: u64, width: u32) -> Option<u64>
    requires low { 1 ≤ width }
    requires high { width ≤ 64 }
    ensures { result ≡ negative_bits width n }
{
    if n > 1 << (width - 1) {
        return None;
    }
    let range = 1u128 << width;
    Some(((range - u128::from(n)) % range) as u64)
}

/// The number modulo 2^width that an optional `-` and 1 to 20 decimal digits write, where it lies
/// from -2^(width - 1) to 2^width - 1.
#[tactic(auto, unfolding(crate::specs::Numbers::integer_bits))]
fn integer_bits(s: &str, width: u32) -> Option<u64>
    requires low { 1 ≤ width }
    requires high { width ≤ 64 }
    ensures { result ≡ integer_bits width s.now }
{
    match behind(s, "-") {
        Some(digits) => negative_bits(read_decimal(digits)?, width),
        None => positive_bits(read_decimal(s)?, width),
    }
}

/// The number that a text as `i32:-1` or `i64:255` writes: its width, an optional `-` and 1 to 20
/// decimal digits. It lies from -2^31 to 2^32 - 1, or from -2^63 to 2^64 - 1.
#[tactic(auto, unfolding(crate::specs::Numbers::number_value))]
pub fn read_value(s: &str) -> Option<Number>
    ensures { result ≡ number_value s.now }
{
    if let Some(integer) = behind(s, "i32:") {
        let bits = integer_bits(integer, 32)?;
        return Some(Number { wide: false, bits });
    }
    let integer = behind(s, "i64:")?;
    let bits = integer_bits(integer, 64)?;
    Some(Number { wide: true, bits })
}

//! Texts of scalars (DWARF 4 sections 5.1, 5.7 and 7.8).

ghost use Rattle.std.specs.Prelude.{◌≡◌, ◌<◌, ◌≤◌, ◌^◌, ◌∷◌, [], ◌++◌, pos, filter, find, OnOk, option_copied};
ghost use Rattle.std.specs.Fmt.{signed_decimal};
ghost use Rattle.dwarf_entries.specs.Standing.{is_child, children_tagged};
ghost use Rattle.dwarf_entries.specs.Tags.{tag_enumerator};
ghost use Rattle.var_values.specs.Texts as texts;

use causes::NoMemory;
use dwarf_entries::names::CONST_VALUE;
use dwarf_entries::tags::ENUMERATOR;
use dwarf_entries::{is_child, name_or_empty, number};
use dwarf_info::{Entry, Units};
use dwarf_types::{TypeStanding, number_key};
use itoa::Buffer;
use pm_text::Text;
use std::str;

/// Appends an ASCII character.
#[tactic(auto, using(crate::proofs::Ascii::one_ascii))]
fn push_ascii(text: &mut Text, byte: u8) -> Result<(), NoMemory>
    requires { byte < 128 }
    ensures { OnOk result (text.new ≡ text.old ++ byte ∷ []) }
{
    match str::from_utf8(&[byte]) {
        Ok(character) => text.push_str(character),
        Err(_) => unreachable!(),
    }
}

/// Appends the character of a number from 32 to 126, in marks.
fn push_character(text: &mut Text, number: i128) -> Result<(), NoMemory>
    ensures { OnOk result (text.new ≡ text.old ++ texts.character number) }
{
    if number < 32 || number > 126 {
        return Ok(());
    }
    text.push_str(" '")?;
    push_ascii(text, number as u8)?;
    push_ascii(text, b'\'')
}

/// Appends a number, and behind one from 32 to 126 the character.
fn push_with_character(text: &mut Text, number: i128) -> Result<(), NoMemory>
    ensures { OnOk result (text.new ≡ text.old ++ texts.with_character number) }
{
    text.push_decimal(number)?;
    push_character(text, number)
}

/// Appends a number that no signed type may hold.
pub fn push_unsigned(text: &mut Text, number: u128) -> Result<(), NoMemory>
    ensures { OnOk result (text.new ≡ text.old ++ signed_decimal (pos number)) }
{
    text.push_str(Buffer::new().format(number))
}

/// Appends a code point that does not print, by its number.
fn push_escaped(text: &mut Text, word: u64) -> Result<(), NoMemory>
    ensures { OnOk result (text.new ≡ text.old ++ texts.escaped word) }
{
    text.push_str("\\u{")?;
    text.push_hex(word, 1)?;
    text.push_str("}")
}

/// Appends what stands between the marks of a code point.
fn push_point(text: &mut Text, word: u64) -> Result<(), NoMemory>
    ensures { OnOk result (text.new ≡ text.old ++ texts.point word) }
{
    if 32 <= word && word <= 126 {
        push_ascii(text, word as u8)
    } else {
        push_escaped(text, word)
    }
}

/// Appends a code point: its number, and behind it the character in marks.
fn push_code_point(text: &mut Text, word: u64) -> Result<(), NoMemory>
    ensures { OnOk result (text.new ≡ text.old ++ texts.code_point_text word) }
{
    text.push_decimal(i128::from(word))?;
    text.push_str(" '")?;
    push_point(text, word)?;
    text.push_str("'")
}

/// Appends an address.
pub fn push_address(text: &mut Text, address: u64) -> Result<(), NoMemory>
    ensures { OnOk result (text.new ≡ text.old ++ texts.address_text address) }
{
    text.push_str("0x")?;
    text.push_hex(address, 8)
}

/// Appends two digits for each of so many bytes of a number, the highest first.
fn push_byte_digits(text: &mut Text, count: u64, word: u128) -> Result<(), NoMemory>
    ensures { OnOk result (text.new ≡ text.old ++ texts.byte_digits count word) }
{
    if count == 0 {
        return Ok(());
    }
    push_byte_digits(text, count - 1, word / 256)?;
    text.push_hex((word % 256) as u64, 2)
}

fn push_float(text: &mut Text, size: u64, word: u128) -> Result<(), NoMemory>
    ensures { OnOk result (text.new ≡ text.old ++ texts.float_text size word) }
{
    text.push_str("0x")?;
    push_byte_digits(text, size, word)
}

fn push_boolean(text: &mut Text, word: u128) -> Result<(), NoMemory>
    ensures { OnOk result (text.new ≡ text.old ++ texts.boolean_text word) }
{
    if word == 0 {
        text.push_str("false")
    } else {
        text.push_str("true")
    }
}

/// Appends the text of a base type: by its encoding and size its bits as an unsigned number, or the
/// number that they are.
#[tactic(auto, unfolding(crate::specs::Texts::base_text))]
pub fn push_base(
    text: &mut Text,
    encoding: u64,
    size: u64,
    word: u128,
    number: i128,
) -> Result<(), NoMemory>
    requires address { encoding ≡ 1 → word < 2 ^ 64 }
    requires point { encoding ≡ 16 → word < 2 ^ 64 }
    ensures { OnOk result (text.new ≡ text.old ++ texts.base_text encoding size word number) }
{
    match encoding {
        1 => push_address(text, word as u64),
        2 => push_boolean(text, word),
        4 => push_float(text, size, word),
        6 | 8 => push_with_character(text, number),
        16 => push_code_point(text, word as u64),
        _ => text.push_decimal(number),
    }
}

/// Whether a constant is a value, as numbers of a type of this size.
#[tactic(auto, using(crate::proofs::EnumeratorLaws::same_keys))]
pub fn equals(size: u64, value: i128, constant: Option<i128>) -> bool
    requires { size ≤ 8 }
    ensures { result ≡ texts.equals size value constant }
{
    match constant {
        Some(constant) => number_key(size, constant) == number_key(size, value),
        None => false,
    }
}

/// Whether an enumerator has a value, as numbers of the type's size.
fn has_value(entry: &Entry<'_>, size: u64, value: i128) -> bool
    requires { size ≤ 8 }
    ensures { result ≡ texts.has_value size value entry.now }
{
    equals(size, value, number(&entry.attributes, CONST_VALUE))
}

/// The first enumerator of a value.
fn enumerator<'r, 'a>(
    entries: &'r [Entry<'a>],
    depth: u32,
    size: u64,
    value: i128,
) -> Option<&'r Entry<'a>>
    requires { size ≤ 8 }
    ensures { option_copied result ≡ find (texts.has_value size value)
        (filter (is_child depth tag_enumerator) entries.now) }
{
    for entry in entries {
        if is_child(entry, depth, ENUMERATOR) && has_value(entry, size, value) {
            return Some(entry);
        }
    }
    None
}

/// The first enumerator of a value, which is looked up where they are known by their numbers.
fn first_enumerator<'r, 'k, 'a>(
    standing: &TypeStanding<'r, 'k, 'a>,
    size: u64,
    value: i128,
) -> Option<&'r Entry<'a>>
    requires { size ≤ 8 }
    ensures { option_copied result ≡ find (texts.has_value size value)
        (children_tagged tag_enumerator standing.now) }
{
    if let Some(known) = standing.enumerators_of(size) {
        return standing.enumerator_by(known, value);
    }
    enumerator(
        standing.standing().inside(),
        standing.entry().depth,
        size,
        value,
    )
}

/// Appends the name of the first enumerator of a value, or else the value.
#[tactic(auto, unfolding(crate::specs::Texts::enumeration_text))]
pub fn push_enumeration<'r, 'k, 'a>(
    text: &mut Text,
    units: &'r Units<'a>,
    standing: &TypeStanding<'r, 'k, 'a>,
    size: u64,
    value: i128,
) -> Result<(), NoMemory>
    requires { size ≤ 8 }
    ensures { OnOk result (text.new
        ≡ text.old ++ texts.enumeration_text units.now standing.now size value) }
{
    match first_enumerator(standing, size, value) {
        Some(entry) => text.push_plain(name_or_empty(units, &entry.attributes)),
        None => text.push_decimal(value),
    }
}

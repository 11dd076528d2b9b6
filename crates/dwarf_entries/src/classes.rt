//! Values, seen as one class (DWARF 4 section 7.5.4). One of another class counts as absent.

ghost use Rattle.std.specs.Prelude.{◌≡◌, option_copied};
ghost use Rattle.dwarf_info.specs.Attributes.{as_address, as_number, as_block, as_text, as_reference, as_offset};
ghost use Rattle.dwarf_entries.specs.Names.{as_natural};

use dwarf_info::AttrValue;

pub fn as_address(value: &AttrValue<'_>) -> Option<u32>
    ensures { result ≡ as_address value.now }
{
    match value {
        AttrValue::Address(address) => Some(*address),
        _ => None,
    }
}

/// A constant, with its sign.
pub fn as_number(value: &AttrValue<'_>) -> Option<i128>
    ensures { result ≡ as_number value.now }
{
    match value {
        AttrValue::Constant(number) => Some(i128::from(*number)),
        AttrValue::Signed(number) => Some(i128::from(*number)),
        _ => None,
    }
}

pub fn as_block<'a>(value: &AttrValue<'a>) -> Option<&'a [u8]>
    ensures { option_copied result ≡ as_block value.now }
{
    match value {
        AttrValue::Block(bytes) => Some(bytes.as_slice()),
        _ => None,
    }
}

pub fn as_text<'a>(value: &AttrValue<'a>) -> Option<&'a [u8]>
    ensures { option_copied result ≡ as_text value.now }
{
    match value {
        AttrValue::Text(bytes) => Some(bytes.as_slice()),
        _ => None,
    }
}

/// The offset in the section of the entry that is meant.
pub fn as_reference(value: &AttrValue<'_>) -> Option<u32>
    ensures { result ≡ as_reference value.now }
{
    match value {
        AttrValue::Reference(at) => Some(*at),
        _ => None,
    }
}

/// An offset in another section.
pub fn as_offset(value: &AttrValue<'_>) -> Option<u32>
    ensures { result ≡ as_offset value.now }
{
    match value {
        AttrValue::Offset(at) => Some(*at),
        _ => None,
    }
}

/// A constant that is not below 0.
pub fn as_natural(value: &AttrValue<'_>) -> Option<u64>
    ensures { result ≡ as_natural value.now }
{
    match value {
        AttrValue::Constant(number) => Some(*number),
        AttrValue::Signed(number) => {
            if *number >= 0 {
                Some(*number as u64)
            } else {
                None
            }
        }
        _ => None,
    }
}

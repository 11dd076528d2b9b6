//! The attribute of a name.

ghost use Rattle.std.specs.Prelude.{◌≡◌, option_copied};
ghost use Rattle.dwarf_info.specs.Attributes.{attribute, valued, as_address, as_number, as_block, as_text};
ghost use Rattle.dwarf_info.specs.Attributes.{as_reference, as_offset};
ghost use Rattle.dwarf_entries.specs.Names.{as_natural};

use crate::classes::{
    as_address, as_block, as_natural, as_number, as_offset, as_reference, as_text,
};
use dwarf_info::{AttrValue, Attributes};

/// The value of the first attribute of a name, in logarithmic time.
pub fn attribute<'a>(attributes: &Attributes<'a>, name: u64) -> Option<AttrValue<'a>>
    ensures { result ≡ attribute name attributes.now }
{
    attributes.get(name)
}

/// The value of an attribute that is an address.
pub fn address(attributes: &Attributes<'_>, name: u64) -> Option<u32>
    ensures { result ≡ valued as_address name attributes.now }
{
    match attribute(attributes, name) {
        Some(value) => as_address(&value),
        None => None,
    }
}

/// The value of an attribute that is a constant, with its sign.
pub fn number(attributes: &Attributes<'_>, name: u64) -> Option<i128>
    ensures { result ≡ valued as_number name attributes.now }
{
    match attribute(attributes, name) {
        Some(value) => as_number(&value),
        None => None,
    }
}

/// The value of an attribute that is a constant not below 0.
pub fn natural(attributes: &Attributes<'_>, name: u64) -> Option<u64>
    ensures { result ≡ valued as_natural name attributes.now }
{
    match attribute(attributes, name) {
        Some(value) => as_natural(&value),
        None => None,
    }
}

/// The offset in the section of the entry that an attribute refers to.
pub fn reference(attributes: &Attributes<'_>, name: u64) -> Option<u32>
    ensures { result ≡ valued as_reference name attributes.now }
{
    match attribute(attributes, name) {
        Some(value) => as_reference(&value),
        None => None,
    }
}

/// The value of an attribute that is an offset in another section.
pub fn offset(attributes: &Attributes<'_>, name: u64) -> Option<u32>
    ensures { result ≡ valued as_offset name attributes.now }
{
    match attribute(attributes, name) {
        Some(value) => as_offset(&value),
        None => None,
    }
}

/// The bytes of an attribute that is a block.
pub fn block<'a>(attributes: &Attributes<'a>, name: u64) -> Option<&'a [u8]>
    ensures { option_copied result ≡ valued as_block name attributes.now }
{
    match attribute(attributes, name) {
        Some(value) => as_block(&value),
        None => None,
    }
}

/// The bytes of an attribute that is a text.
pub fn text<'a>(attributes: &Attributes<'a>, name: u64) -> Option<&'a [u8]>
    ensures { option_copied result ≡ valued as_text name attributes.now }
{
    match attribute(attributes, name) {
        Some(value) => as_text(&value),
        None => None,
    }
}

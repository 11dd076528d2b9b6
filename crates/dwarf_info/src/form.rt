//! The forms of attributes, each put together of how it is spelled and of what it stands for.

ghost use Rattle.std.specs.Prelude.{◌≡◌};
ghost use Rattle.dwarf_info.specs.calls.Sizes.{IsSized};

use crate::slots::Slots;
use dwarf_abbrev::Coded;
use pm_text::Items;
use std::marker::Model;

/// How a number is spelled.
#[derive(Clone, Copy)]
pub enum NumberForm {
    /// So many bytes, at most 8, the lowest first.
    Bytes(u32),
    /// Unsigned LEB128.
    Leb,
}

/// A section that holds texts.
#[derive(Clone, Copy)]
pub enum TextSection {
    Str,
    LineStr,
}

/// A table that is looked up by index.
#[derive(Clone, Copy)]
pub enum IndexTable {
    Texts,
    Addresses,
    LocationLists,
    RangeLists,
}

/// What a number stands for.
#[derive(Clone, Copy)]
pub enum Meaning {
    Address,
    Constant,
    Flag,
    /// An offset in another section.
    Offset,
    /// The text at this offset of a section of texts.
    TextIn(TextSection),
    /// An entry, by its offset from the unit.
    InUnit,
    /// An entry, by its offset in the section.
    InSection,
    /// An entry of a table.
    IndexOf(IndexTable),
}

/// The form of a value.
#[derive(Clone, Copy)]
pub enum Form {
    Number(NumberForm, Meaning),
    /// A number of bytes, and as many bytes.
    Block(NumberForm),
    /// Bytes up to a zero byte.
    Text,
    /// Signed LEB128.
    Signed,
    /// No bytes: a flag that is set.
    Present,
    /// So many bytes, which are not used.
    Skipped(u32),
    /// No bytes: the value stands in the abbreviation.
    Implicit(i64),
    /// The code of the form stands in front of the value.
    Indirect,
}

pub type Shapes = Items<Shape>;

/// An attribute and its form, where its code is that of a form.
#[derive(Drop)]
pub struct Slot {
    pub attribute: u64,
    pub form: Option<SizedForm>,
}

/// What the entries of one code have in common, with the forms of a version.
#[derive(Drop)]
pub struct Shape {
    pub code: u64,
    pub tag: u64,
    /// Whether a list of children stands behind the attributes.
    pub children: bool,
    pub slots: Slots,
}

impl Coded for Shape {
    ghost code = { λ s. s.code };

    fn code(&self) -> u64 {
        self.code
    }
}

/// A form whose numbers have at most 8 bytes, and 4 where they are addresses or offsets.
#[derive(Drop)]
pub struct SizedForm {
    form: Form,
}

impl Model for SizedForm {
    ghost use Rattle.dwarf_info.specs.declared.form.Form.{Form};
    ghost use Rattle.dwarf_info.specs.calls.Sizes.{IsSized};

    ghost Value = { Form };

    ghost view = { λ f. f.form };

    ghost invariant = { λ f. IsSized f.form };
}

impl SizedForm {
    pub fn new(form: Form) -> Self
        requires sized { IsSized form }
        ensures { result ≡ form }
    {
        SizedForm { form }
    }

    pub fn form(&self) -> Form
        ensures is { result ≡ self.now }
        ensures sized { IsSized result }
    {
        self.form
    }
}

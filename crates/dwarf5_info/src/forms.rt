//! The forms that version 5 adds (DWARF 5 section 7.5.6).

ghost use Rattle.std.specs.Prelude.{◌≡◌, IfSome};
ghost use Rattle.dwarf_info.specs.Forms.{form_of};
ghost use Rattle.dwarf_info.specs.calls.Sizes.{IsSized};
ghost use Rattle.dwarf5_info.specs.Forms5.{forms5};

use dwarf_info::{Form, IndexTable, Meaning, NumberForm, TextSection, form4};

/// The form of a code.
pub fn form5(code: u64) -> Option<Form>
    ensures row { result ≡ form_of forms5 code }
    ensures sized { IfSome result IsSized }
{
    match code {
        0x1A => Some(Form::Number(NumberForm::Leb, Meaning::IndexOf(IndexTable::Texts))),
        0x1B => Some(Form::Number(NumberForm::Leb, Meaning::IndexOf(IndexTable::Addresses))),
        0x1E => Some(Form::Skipped(16)),
        0x1F => Some(Form::Number(NumberForm::Bytes(4), Meaning::TextIn(TextSection::LineStr))),
        0x22 => Some(Form::Number(NumberForm::Leb, Meaning::IndexOf(IndexTable::LocationLists))),
        0x23 => Some(Form::Number(NumberForm::Leb, Meaning::IndexOf(IndexTable::RangeLists))),
        0x25 => Some(Form::Number(NumberForm::Bytes(1), Meaning::IndexOf(IndexTable::Texts))),
        0x26 => Some(Form::Number(NumberForm::Bytes(2), Meaning::IndexOf(IndexTable::Texts))),
        0x27 => Some(Form::Number(NumberForm::Bytes(3), Meaning::IndexOf(IndexTable::Texts))),
        0x28 => Some(Form::Number(NumberForm::Bytes(4), Meaning::IndexOf(IndexTable::Texts))),
        0x29 => Some(Form::Number(
            NumberForm::Bytes(1),
            Meaning::IndexOf(IndexTable::Addresses),
        )),
        0x2A => Some(Form::Number(
            NumberForm::Bytes(2),
            Meaning::IndexOf(IndexTable::Addresses),
        )),
        0x2B => Some(Form::Number(
            NumberForm::Bytes(3),
            Meaning::IndexOf(IndexTable::Addresses),
        )),
        0x2C => Some(Form::Number(
            NumberForm::Bytes(4),
            Meaning::IndexOf(IndexTable::Addresses),
        )),
        _ => form4(code),
    }
}

//! Units of version 4 (DWARF 4 section 7.5.1.1).

ghost use Rattle.std.specs.Prelude.{◌≡◌, ◌≤◌, [], length, option_copied, unwrap_or, IfOk, IfSome};
ghost use Rattle.dwarf_info.specs.Forms.{forms4, form_of};
ghost use Rattle.dwarf_info.specs.Version4.{slot_of, header4_item, version4, only4};
ghost use Rattle.dwarf_info.specs.Sections.{SectionBytes5, greatest_section};
ghost use Rattle.dwarf_info.specs.inner.Contexts.{no_index};
ghost use Rattle.dwarf_info.specs.calls.Keeping.{Keeps};
ghost use Rattle.dwarf_info.specs.calls.Pairs.{KnowsAll};
ghost use Rattle.dwarf_info.specs.calls.Rows4.{pair4, rows4};
ghost use Rattle.dwarf_info.specs.calls.Sizes.{IsSized};

use crate::attributes::Attributes;
use crate::entry::{AttrValue, Unit};
use crate::form::{Form, IndexTable, Meaning, NumberForm, SizedForm, Slot, TextSection};
use crate::known::KnownPairs;
use crate::prepared::PreparedSections;
use crate::sections::Sections5;
use crate::tables::Tables;
use crate::unit::read_body;
use crate::version::{UnitVersion, UnitVersions};
use causes::NoMemory;
use dwarf_abbrev::Pair;
use dwarf_bytes::number;
use std::alloc::Global;
use wasm_bytes::{ItemFault, Malformed, Reader};

/// The form of a code (DWARF 4 section 7.5.4).
pub fn form4(code: u64) -> Option<Form>
    ensures row { result ≡ form_of forms4 code }
    ensures sized { IfSome result IsSized }
{
    match code {
        0x01 => Some(Form::Number(NumberForm::Bytes(4), Meaning::Address)),
        0x03 => Some(Form::Block(NumberForm::Bytes(2))),
        0x04 => Some(Form::Block(NumberForm::Bytes(4))),
        0x05 => Some(Form::Number(NumberForm::Bytes(2), Meaning::Constant)),
        0x06 => Some(Form::Number(NumberForm::Bytes(4), Meaning::Constant)),
        0x07 => Some(Form::Number(NumberForm::Bytes(8), Meaning::Constant)),
        0x08 => Some(Form::Text),
        0x09 => Some(Form::Block(NumberForm::Leb)),
        0x0A => Some(Form::Block(NumberForm::Bytes(1))),
        0x0B => Some(Form::Number(NumberForm::Bytes(1), Meaning::Constant)),
        0x0C => Some(Form::Number(NumberForm::Bytes(1), Meaning::Flag)),
        0x0D => Some(Form::Signed),
        0x0E => Some(Form::Number(NumberForm::Bytes(4), Meaning::TextIn(TextSection::Str))),
        0x0F => Some(Form::Number(NumberForm::Leb, Meaning::Constant)),
        0x10 => Some(Form::Number(NumberForm::Bytes(4), Meaning::InSection)),
        0x11 => Some(Form::Number(NumberForm::Bytes(1), Meaning::InUnit)),
        0x12 => Some(Form::Number(NumberForm::Bytes(2), Meaning::InUnit)),
        0x13 => Some(Form::Number(NumberForm::Bytes(4), Meaning::InUnit)),
        0x14 => Some(Form::Number(NumberForm::Bytes(8), Meaning::InUnit)),
        0x15 => Some(Form::Number(NumberForm::Leb, Meaning::InUnit)),
        0x16 => Some(Form::Indirect),
        0x17 => Some(Form::Number(NumberForm::Bytes(4), Meaning::Offset)),
        0x18 => Some(Form::Block(NumberForm::Leb)),
        0x19 => Some(Form::Present),
        0x20 => Some(Form::Skipped(8)),
        _ => None,
    }
}

fn slot(pair: &Pair) -> Slot
    ensures { result ≡ slot_of forms4 pair.now }
{
    Slot {
        attribute: pair.attribute,
        form: match form4(pair.form) {
            Some(form) => Some(SizedForm::new(form)),
            None => None,
        },
    }
}

/// Version 4, in which no form is an index.
#[derive(Drop)]
pub struct Four {}

impl<'a> UnitVersion<'a> for Four {
    type Index = ();

    ghost version = { version4 };

    ghost pair = { pair4 };

    ghost looked = { λ _ _. no_index };

    fn form(code: u64) -> Option<Form> {
        form4(code)
    }

    /// The offset of the abbreviations, and the size of an address, which is 4.
    #[tactic(auto, unfolding(crate::specs::Version4::header4_item))]
    fn header(reader: &mut Reader<'a>) -> Result<u64, Malformed> {
        let offset = number(reader, 4)?;
        let at = reader.at();
        if number(reader, 1)? != 4 {
            return Err(Malformed { at });
        }
        Ok(offset)
    }

    #[tactic(auto, unfolding(dwarf_abbrev::specs::Reading::pair_item))]
    fn read_pair(reader: &mut Reader<'a>) -> Result<Option<Slot>, Malformed> {
        let attribute = reader.u64()?;
        let form = reader.u64()?;
        if attribute == 0 && form == 0 {
            return Ok(None);
        }
        Ok(Some(slot(&Pair { attribute, form })))
    }

    #[tactic(auto, using(crate::proofs::FourLaws::rows_are))]
    fn rows_are_shapes() {}

    fn index(root: Option<&Attributes<'a>>)
        ensures { (s : SectionBytes5) → no_index
            ≡ version4.index s (unwrap_or (option_copied root.entry) []) }
    {
        let _unused = root.is_some();
    }

    fn value(
        _sections: &PreparedSections<'a>,
        _index: &(),
        table: IndexTable,
        number: u64,
    ) -> Option<AttrValue<'a>>
        ensures { result ≡ no_index table number }
    {
        let _unused = (table, number);
        None
    }
}

/// Version 4 alone.
#[derive(Drop)]
pub struct OnlyFour {
    pairs: KnownPairs,
    tables: Tables,
}

impl OnlyFour {
    /// No table of abbreviations of these sections is read yet.
    pub fn new(alloc: Global, sections: &Sections5<'_>) -> Result<Self, NoMemory>
        requires { length sections.now.base.abbreviations ≤ greatest_section }
        ensures { IfOk result (λ v. KnowsAll pair4 sections.now v.pairs
            × Keeps rows4 sections.now v.tables) }
    {
        match KnownPairs::of::<Four>(alloc, sections) {
            Ok(pairs) => Ok(OnlyFour {
                pairs,
                tables: Tables::new(alloc),
            }),
            Err(NoMemory) => Err(NoMemory),
        }
    }
}

impl<'a> UnitVersions<'a> for OnlyFour {
    ghost versions = { only4 };

    ghost is_ready = { λ s v. KnowsAll pair4 s v.pairs × Keeps rows4 s v.tables };

    fn read_body(
        &mut self,
        alloc: Global,
        sections: &PreparedSections<'a>,
        origin: u32,
        version: u32,
        reader: &mut Reader<'a>,
    ) -> Result<Unit<'a>, ItemFault> {
        if version != 4 {
            return Err(ItemFault::At(reader.at()));
        }
        let pairs = &self.pairs;
        let tables = &mut self.tables;
        read_body::<Four>(alloc, sections, pairs, tables, origin, version, reader)
    }
}

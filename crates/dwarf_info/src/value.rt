//! Reading the values of attributes, by form (DWARF 4 section 7.5.4).

ghost use Rattle.std.specs.Prelude.{◌≡◌, ◌+◌, ◌<◌, ◌^◌, OnOk, IfOk};
ghost use Rattle.wasm_bytes.specs.Place.{Stays};
ghost use Rattle.wasm_bytes.specs.Reading.{◌▷◌, mapped, run_item};
ghost use Rattle.wasm_bytes.specs.calls.Answers.{Reads};
ghost use Rattle.dwarf_bytes.specs.Items.{meaning_item};
ghost use Rattle.dwarf_info.specs.declared.entry.AttrValue.TheVariants as value;
ghost use Rattle.dwarf_info.specs.Values.{refers_to, meant, width_item, plain_item, named_item};
ghost use Rattle.dwarf_info.specs.inner.Contexts.{seen};
ghost use Rattle.dwarf_info.specs.inner.Reading.{slot_value};
ghost use Rattle.dwarf_info.specs.calls.Sizes.{IsWidth, IsNumber, IsSized, Fits};

use crate::context::UnitContext;
use crate::entry::AttrValue;
use crate::form::{Form, Meaning, NumberForm, Slot};
use crate::version::UnitVersion;
use dwarf_bytes::{number, text};
use wasm_bytes::{Malformed, Reader, Run};

/// A reference to the entry at a distance from an offset. Offsets have 32 bits.
fn refers_to<'a>(origin: u32, distance: u64) -> AttrValue<'a>
    ensures { result ≡ refers_to (origin + distance) }
{
    match u64::from(origin).checked_add(distance) {
        Some(at) if at < 0x1_0000_0000 => AttrValue::Reference(at as u32),
        _ => AttrValue::Other,
    }
}

/// What a number stands for.
fn meant<'c, 'a, V: UnitVersion<'a>>(
    context: &UnitContext<'c, 'a, V::Index>,
    meaning: Meaning,
    number: u64,
) -> Option<AttrValue<'a>>
    requires fits { Fits meaning number }
    ensures { result ≡ meant (seen V.version V.looked context.now) meaning number }
{
    match meaning {
        Meaning::Address => Some(AttrValue::Address(number as u32)),
        Meaning::Constant => Some(AttrValue::Constant(number)),
        Meaning::Flag => Some(AttrValue::Flag(number != 0)),
        Meaning::Offset => Some(AttrValue::Offset(number as u32)),
        Meaning::TextIn(section) => match context.sections.text_at(section, number) {
            Some(text) => Some(AttrValue::Text(text)),
            None => None,
        },
        Meaning::InUnit => Some(refers_to(context.origin, number)),
        Meaning::InSection => Some(refers_to(0, number)),
        Meaning::IndexOf(table) => match &context.index {
            Some(index) => V::value(context.sections, index, table, number),
            None => Some(AttrValue::Other),
        },
    }
}

fn read_width<'a>(width: NumberForm, reader: &mut Reader<'a>) -> Result<u64, Malformed>
    requires width { IsWidth width }
    ensures item { Reads result reader.new (width_item width reader.old) }
    ensures stays { OnOk result (Stays reader.old reader.new) }
{
    match width {
        NumberForm::Bytes(bytes) => number(reader, bytes as usize),
        NumberForm::Leb => reader.u64(),
    }
}

/// A number that has the size of its meaning.
fn read_number<'a>(
    width: NumberForm,
    meaning: Meaning,
    reader: &mut Reader<'a>,
) -> Result<u64, Malformed>
    requires sized { IsNumber width meaning }
    ensures item { Reads result reader.new (width_item width reader.old) }
    ensures stays { OnOk result (Stays reader.old reader.new) }
    ensures fits { IfOk result (Fits meaning) }
{
    match width {
        NumberForm::Bytes(bytes) => number(reader, bytes as usize),
        NumberForm::Leb => reader.u64(),
    }
}

fn read_meant<'c, 'a, V: UnitVersion<'a>>(
    context: &UnitContext<'c, 'a, V::Index>,
    width: NumberForm,
    meaning: Meaning,
    reader: &mut Reader<'a>,
) -> Result<AttrValue<'a>, Malformed>
    requires sized { IsNumber width meaning }
    ensures item { Reads result reader.new
        (meaning_item (meant (seen V.version V.looked context.now) meaning) (width_item width)
        reader.old) }
    ensures stays { OnOk result (Stays reader.old reader.new) }
{
    let at = reader.at();
    let number = read_number(width, meaning, reader)?;
    meant::<V>(context, meaning, number).ok_or(Malformed { at })
}

/// A number of bytes, and as many bytes.
fn read_block<'a>(width: NumberForm, reader: &mut Reader<'a>) -> Result<AttrValue<'a>, Malformed>
    requires width { IsWidth width }
    ensures item { Reads result reader.new
        (mapped value.Block (width_item width ▷ run_item) reader.old) }
    ensures stays { OnOk result (Stays reader.old reader.new) }
{
    let len = read_width(width, reader)?;
    let bytes = reader.run(len as usize)?;
    Ok(AttrValue::Block(Run::new(bytes)))
}

/// A value in a form that is stated.
#[tactic(auto, unfolding(crate::specs::Values::plain_item))]
fn read_plain<'c, 'a, V: UnitVersion<'a>>(
    context: &UnitContext<'c, 'a, V::Index>,
    form: Form,
    reader: &mut Reader<'a>,
) -> Result<AttrValue<'a>, Malformed>
    requires sized { IsSized form }
    ensures item { Reads result reader.new
        (plain_item (seen V.version V.looked context.now) form reader.old) }
    ensures stays { OnOk result (Stays reader.old reader.new) }
{
    match form {
        Form::Number(width, meaning) => read_meant::<V>(context, width, meaning, reader),
        Form::Block(width) => read_block(width, reader),
        Form::Text => match text(reader) {
            Ok(bytes) => Ok(AttrValue::Text(Run::new(bytes))),
            Err(fault) => Err(fault),
        },
        Form::Signed => match reader.s64() {
            Ok(number) => Ok(AttrValue::Signed(number)),
            Err(fault) => Err(fault),
        },
        Form::Present => Ok(AttrValue::Flag(true)),
        Form::Skipped(bytes) => match reader.run(bytes as usize) {
            Ok(_) => Ok(AttrValue::Other),
            Err(fault) => Err(fault),
        },
        Form::Implicit(value) => Ok(AttrValue::Signed(value)),
        Form::Indirect => Err(Malformed { at: reader.at() }),
    }
}

/// A value whose form stands in front of it.
#[tactic(auto, unfolding(crate::specs::Values::named_item))]
fn read_named<'c, 'a, V: UnitVersion<'a>>(
    context: &UnitContext<'c, 'a, V::Index>,
    reader: &mut Reader<'a>,
) -> Result<AttrValue<'a>, Malformed>
    ensures item { Reads result reader.new
        (named_item (seen V.version V.looked context.now) reader.old) }
    ensures stays { OnOk result (Stays reader.old reader.new) }
{
    let code = reader.u64()?;
    match V::form(code) {
        Some(form) => read_plain::<V>(context, form, reader),
        None => Err(Malformed { at: reader.at() }),
    }
}

/// The value of an attribute of an abbreviation.
pub fn read_slot<'c, 'a, V: UnitVersion<'a>>(
    context: &UnitContext<'c, 'a, V::Index>,
    slot: &Slot,
    reader: &mut Reader<'a>,
) -> Result<AttrValue<'a>, Malformed>
    ensures item { Reads result reader.new
        (slot_value (seen V.version V.looked context.now) slot.now reader.old) }
    ensures stays { OnOk result (Stays reader.old reader.new) }
{
    match &slot.form {
        Some(form) => match form.form() {
            Form::Indirect => read_named::<V>(context, reader),
            stated => read_plain::<V>(context, stated, reader),
        },
        None => Err(Malformed { at: reader.at() }),
    }
}

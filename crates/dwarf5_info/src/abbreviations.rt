//! Reading pairs of tables of abbreviations, in which the value of an implicit_const stands behind
//! its pair (DWARF 5 section 7.5.3).

ghost use Rattle.std.specs.Prelude.{◌≡◌, OnOk};
ghost use Rattle.wasm_bytes.specs.Place.{Moves, Stays};
ghost use Rattle.wasm_bytes.specs.calls.Answers.{Reads};
ghost use Rattle.dwarf_info.specs.Forms.{form_of};
ghost use Rattle.dwarf5_info.specs.Forms5.{forms5};
ghost use Rattle.dwarf5_info.specs.Version5.{slot5_item};
ghost use Rattle.dwarf5_info.specs.calls.Rows5.{pair5};

use crate::forms::form5;
use dwarf_abbrev::Pair;
use dwarf_info::{Form, SizedForm, Slot};
use wasm_bytes::{Malformed, Reader};

fn sized(code: u64) -> Option<SizedForm>
    ensures { result ≡ form_of forms5 code }
{
    match form5(code) {
        Some(form) => Some(SizedForm::new(form)),
        None => None,
    }
}

fn slot(attribute: u64, form: Option<SizedForm>) -> Slot
    ensures { result ≡ record { attribute = attribute; form = form } }
{
    Slot { attribute, form }
}

/// What stands behind a pair: the value, where its form is implicit_const.
fn read_slot(pair: Pair, reader: &mut Reader<'_>) -> Result<Slot, Malformed>
    ensures item { Reads result reader.new (slot5_item pair reader.old) }
    ensures stays { OnOk result (Stays reader.old reader.new) }
{
    if pair.form == 0x21 {
        let value = reader.s64()?;
        let form = SizedForm::new(Form::Implicit(value));
        return Ok(slot(pair.attribute, Some(form)));
    }
    Ok(slot(pair.attribute, sized(pair.form)))
}

/// A pair of a row, with the form of its code, or None for the end mark.
#[tactic(auto, unfolding(dwarf_abbrev::specs::Reading::pair_item))]
pub fn read_pair5(reader: &mut Reader<'_>) -> Result<Option<Slot>, Malformed>
    ensures item { Reads result reader.new (pair5 reader.old) }
    ensures moves { OnOk result (Moves reader.old reader.new) }
{
    let attribute = reader.u64()?;
    let form = reader.u64()?;
    if attribute == 0 && form == 0 {
        return Ok(None);
    }
    let slot = read_slot(Pair { attribute, form }, reader)?;
    Ok(Some(slot))
}

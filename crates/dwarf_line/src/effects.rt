//! What opcodes do to the address, the rows and the sequences (DWARF 4 section 6.2.5).

ghost use Rattle.std.specs.Prelude.{◌≡◌, OnOk};
ghost use Rattle.wasm_bytes.specs.Place.{Moves};
ghost use Rattle.wasm_bytes.specs.calls.Answers.{Reads};
ghost use Rattle.dwarf_line.specs.inner.Outlines.{address_by, then_by, both_changes, effect_of};
ghost use Rattle.dwarf_line.specs.inner.Scans.{effect_item};

use crate::opcodes::{Opcode, read_opcode};
use crate::parameters::Parameters;
use wasm_bytes::{Malformed, Reader};

/// How opcodes change the address.
#[derive(Clone, Copy)]
pub enum AddressChange {
    Kept,
    /// By so many bytes, modulo 2^32.
    By(u32),
    /// To an address, whatever stood in front.
    To(u32),
}

/// What an opcode does. A row has the address behind the change.
#[derive(Clone, Copy)]
pub enum Effect {
    Changes(AddressChange),
    AddsRow(AddressChange),
    Ends,
}

/// The address behind a change.
pub(crate) fn address_by(change: AddressChange, address: u32) -> u32
    ensures { result ≡ address_by change address }
{
    match change {
        AddressChange::Kept => address,
        AddressChange::By(by) => address.wrapping_add(by),
        AddressChange::To(to) => to,
    }
}

fn then_by(by: u32, change: AddressChange) -> AddressChange
    ensures { result ≡ then_by by change }
{
    match change {
        AddressChange::Kept => AddressChange::By(by),
        AddressChange::By(first) => AddressChange::By(first.wrapping_add(by)),
        AddressChange::To(to) => AddressChange::To(to.wrapping_add(by)),
    }
}

/// The second change behind the first.
pub(crate) fn both_changes(first: AddressChange, second: AddressChange) -> AddressChange
    ensures { result ≡ both_changes first second }
{
    match second {
        AddressChange::Kept => first,
        AddressChange::By(by) => then_by(by, first),
        AddressChange::To(to) => AddressChange::To(to),
    }
}

fn effect_of(parameters: &Parameters<'_>, opcode: &Opcode<'_>) -> Effect
    ensures { result ≡ effect_of parameters.now opcode.now }
{
    match opcode {
        Opcode::Special(n) => Effect::AddsRow(AddressChange::By(parameters.address_advance(*n))),
        Opcode::Copy => Effect::AddsRow(AddressChange::Kept),
        Opcode::AdvancePc(n) => Effect::Changes(AddressChange::By(parameters.length_of(*n))),
        Opcode::AdvanceLine(_) => Effect::Changes(AddressChange::Kept),
        Opcode::SetFile(_) => Effect::Changes(AddressChange::Kept),
        Opcode::SetColumn(_) => Effect::Changes(AddressChange::Kept),
        Opcode::ConstAddPc => {
            let special = 255 - parameters.opcode_base();
            Effect::Changes(AddressChange::By(parameters.address_advance(special)))
        }
        Opcode::FixedAdvancePc(n) => Effect::Changes(AddressChange::By(u32::from(*n))),
        Opcode::EndSequence => Effect::Ends,
        Opcode::SetAddress(address) => Effect::Changes(AddressChange::To(*address)),
        Opcode::DefineFile(_) => Effect::Changes(AddressChange::Kept),
        Opcode::Passed => Effect::Changes(AddressChange::Kept),
    }
}

/// What the next opcode does.
pub(crate) fn read_effect<'a>(
    parameters: &Parameters<'_>,
    reader: &mut Reader<'a>,
) -> Result<Effect, Malformed>
    ensures item { Reads result reader.new (effect_item parameters.now reader.old) }
    ensures moves { OnOk result (Moves reader.old reader.new) }
{
    let opcode = read_opcode(parameters, reader)?;
    Ok(effect_of(parameters, &opcode))
}

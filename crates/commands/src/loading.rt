//! Modules from their bytes, or what is answered in their place.

ghost use Rattle.std.specs.Prelude.{◌≡◌, ◌++◌, IfOk, OnOk, codes};
ghost use Rattle.wasm_decode.specs.Decode.{module_from};
ghost use Rattle.std.specs.Fmt.{decimal};
ghost use Rattle.commands.specs.Refusal.{place_name, invalid};
ghost use Rattle.commands.specs.Loading.{undecoded};
ghost use Rattle.commands.specs.Texts.{ended};
ghost use Rattle.commands.specs.calls.Given.{IfRefused};
ghost use Rattle.commands.specs.calls.Loaded.{IsLoaded};
ghost use Rattle.commands.specs.calls.Ended.{Ended};

use crate::given::Given;
use crate::outcome::{Outcome, over_limit, push_number};
use crate::status::Status;
use causes::NoMemory;
use pm_text::Text;
use std::alloc::Global;
use wasm_decode::{DecodeFault, decode};
use wasm_syntax::Place;
use wasm_validate::{ValidateFault, Validated, validate};

/// Adds the name of a place.
#[tactic(auto, unfolding(crate::specs::Refusal::place_name))]
fn push_place(out: &mut Text, place: Place) -> Result<(), NoMemory>
    ensures { OnOk result (out.new ≡ out.old ++ place_name place) }
{
    match place {
        Place::TypeAt(i) => push_number(out, "type ", u64::from(i)),
        Place::ImportAt(i) => push_number(out, "import ", u64::from(i)),
        Place::Declaration(i) => push_number(out, "declaration ", u64::from(i)),
        Place::TableAt(i) => push_number(out, "table ", u64::from(i)),
        Place::MemoryAt(i) => push_number(out, "memory ", u64::from(i)),
        Place::GlobalAt(i) => push_number(out, "global ", u64::from(i)),
        Place::ExportAt(i) => push_number(out, "export ", u64::from(i)),
        Place::Start => out.push_str("start"),
        Place::ElementAt(i) => push_number(out, "element ", u64::from(i)),
        Place::DataAt(i) => push_number(out, "data ", u64::from(i)),
        Place::Function { index, offset } => {
            push_number(out, "function ", u64::from(index))?;
            push_number(out, " offset ", u64::from(offset))
        }
    }
}

/// The refusal of a module for a place that is not valid.
fn invalid(alloc: Global, place: Place) -> Result<Outcome, NoMemory>
    ensures { IfOk result (λ o. o ≡ invalid place) }
{
    let mut text = Text::from_str(alloc, "invalid: ")?;
    push_place(&mut text, place)?;
    text.push_str("\n")?;
    Ok(Outcome {
        status: Status::Invalid,
        text,
    })
}

/// Bytes that are refused for what stands at an offset.
fn bad_at(alloc: Global, status: Status, cause: &str, at: usize) -> Result<Outcome, NoMemory>
    ensures { IfOk result (λ o. o ≡ ended status (cause.now ++ decimal at ++ codes "\n")) }
{
    let mut text = Text::new(alloc);
    push_number(&mut text, cause, at as u64)?;
    text.push_str("\n")?;
    Ok(Outcome { status, text })
}

/// The refusal of a module for an import that is no function.
fn bad_import(alloc: Global, index: u32) -> Result<Outcome, NoMemory>
    ensures { IfOk result (λ o. o ≡ undecoded (DecodeFault.ImportKind index)) }
{
    let mut text = Text::new(alloc);
    push_number(&mut text, "import ", u64::from(index))?;
    text.push_str(" is not a function\n")?;
    Ok(Outcome {
        status: Status::Outside,
        text,
    })
}

/// Why bytes are refused as a module.
fn undecoded(alloc: Global, fault: DecodeFault) -> Result<Outcome, NoMemory>
    ensures value { IfOk result (λ o. o ≡ undecoded fault) }
    ensures ended { IfOk result (Ended (λ _. ⊥)) }
{
    match fault {
        DecodeFault::Malformed { at } => {
            bad_at(alloc, Status::Malformed, "malformed module at ", at)
        }
        DecodeFault::Float { at } => bad_at(alloc, Status::Outside, "float at ", at),
        DecodeFault::ImportKind { index } => bad_import(alloc, index),
        DecodeFault::Limit { what, count } => over_limit(alloc, what, count),
        DecodeFault::NoMemory => Err(NoMemory),
    }
}

/// The module that the bytes spell, where it is valid and within the limits, or what is answered in
/// its place.
pub fn load(alloc: Global, bytes: &[u8]) -> Result<Given<Validated>, NoMemory>
    ensures told { IfOk result (λ loaded. IsLoaded loaded (module_from bytes.now)) }
    ensures ended { IfOk result (IfRefused (Ended (λ _. ⊥))) }
{
    let m = match decode(alloc, bytes) {
        Ok(m) => m,
        Err(fault) => return Ok(Given::Refused(undecoded(alloc, fault)?)),
    };
    let refusal = match validate(alloc, m) {
        Ok(valid) => return Ok(Given::Value(valid)),
        Err(ValidateFault::Invalid { place }) => invalid(alloc, place)?,
        Err(ValidateFault::Limit { what, count }) => over_limit(alloc, what, count)?,
        Err(ValidateFault::NoMemory) => return Err(NoMemory),
    };
    Ok(Given::Refused(refusal))
}

//! `check`.

ghost use Rattle.std.specs.Prelude.{◌≡◌, ◌++◌, IfOk, OnOk};
ghost use Rattle.causes.specs.Counts.{Rose};
ghost use Rattle.wasm_decode.specs.Decode.{module_from};
ghost use Rattle.pm_cli.specs.Answer.{CheckAnswer, checked};
ghost use Rattle.pm_cli.specs.Check.{code_text, other_text, valid_text, counted};
ghost use Rattle.commands.specs.Loading.{IfLoaded};
ghost use Rattle.commands.specs.Texts.{file_fault};
ghost use Rattle.commands.specs.Told.{UnlessFault, OnContents};
ghost use Rattle.pm_outside.specs.calls.Kept.{FilesKept};
ghost use Rattle.commands.specs.calls.Ended.{Ended};

use causes::NoMemory;
use commands::{Given, Outcome, Status, load, push_number, read_input};
use pm_outside::Files;
use pm_text::Text;
use std::alloc::Global;
use wasm_syntax::{ModuleParts, Quantity};

#[tactic(auto, unfolding(crate::specs::Check::code_text))]
fn push_code_counts(out: &mut Text, parts: &ModuleParts) -> Result<(), NoMemory>
    ensures { OnOk result (out.new ≡ out.old ++ code_text parts.now) }
{
    push_number(out, "types ", parts.types.len() as u64)?;
    push_number(out, " imports ", parts.imports.len() as u64)?;
    push_number(out, " functions ", parts.functions.len() as u64)
}

#[tactic(auto, unfolding(crate::specs::Check::other_text))]
fn push_other_counts(out: &mut Text, parts: &ModuleParts) -> Result<(), NoMemory>
    ensures { OnOk result (out.new ≡ out.old ++ other_text parts.now) }
{
    push_number(out, " exports ", parts.exports.len() as u64)?;
    push_number(out, " custom ", parts.customs.len() as u64)
}

#[tactic(auto, unfolding(crate::specs::Check::valid_text))]
fn push_counts(out: &mut Text, parts: &ModuleParts) -> Result<(), NoMemory>
    ensures { OnOk result (out.new ≡ out.old ++ valid_text parts.now) }
{
    out.push_str("valid ")?;
    push_code_counts(out, parts)?;
    push_other_counts(out, parts)?;
    out.push_str("\n")
}

/// The line that counts what a valid module has.
fn counted(alloc: Global, parts: &ModuleParts) -> Result<Outcome, NoMemory>
    ensures { IfOk result (λ o. o ≡ counted parts.now) }
{
    let mut text = Text::new(alloc);
    push_counts(&mut text, parts)?;
    Ok(Outcome {
        status: Status::Done,
        text,
    })
}

/// What the bytes of a module get.
fn check_bytes(alloc: Global, bytes: &[u8]) -> Result<Outcome, NoMemory>
    ensures value { IfOk result (IfLoaded checked (module_from bytes.now)) }
    ensures ended { IfOk result (Ended (λ _. ⊥)) }
{
    match load(alloc, bytes)? {
        Given::Value(valid) => counted(alloc, valid.module().parts()),
        Given::Refused(refusal) => Ok(refusal),
    }
}

/// Checks the module in a file.
pub fn check_file<F: Files>(alloc: Global, files: &mut F, file: &str) -> Result<Outcome, NoMemory>
    ensures told { IfOk result (λ o. UnlessFault o.status (OnContents (F.told files.old) (λ held.
        CheckAnswer file.now (held file.now) o))) }
    ensures ended { IfOk result (Ended (λ o.
        (o ≡ file_fault file.now) × Rose (F.faults files.old) (F.faults files.new))) }
    ensures files { FilesKept F.told F.created F.faults files.old files.new }
{
    let input = read_input(alloc, files, file, Quantity::ModuleBytes)?;
    match input {
        Given::Value(bytes) => check_bytes(alloc, &bytes),
        Given::Refused(refusal) => Ok(refusal),
    }
}

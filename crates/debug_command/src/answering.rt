//! The answer on the bytes of a module and of a dump.

ghost use Rattle.std.specs.Prelude.{◌≡◌, ◌++◌, IfOk, OnOk};
ghost use Rattle.dump_format.specs.calls.Contained.{IsContained, IsLimited};
ghost use Rattle.dump_format.specs.Decode.{dump_from};
ghost use Rattle.debugger.specs.Session.{PrintsAll};
ghost use Rattle.debugger.specs.Subject.{Spells, subject_of};
ghost use Rattle.debug_command.specs.Answer as answers;
ghost use Rattle.commands.specs.calls.Ended.{Ended};

use crate::command_list::printed;
use causes::NoMemory;
use commands::{Given, Outcome, Status, load, push_number, refused_dump};
use debugger::Session;
use dump_format::{Dump, decode_dump};
use dump_match::{Matched, Mismatch, matches};
use pm_text::Text;
use std::alloc::Global;
use wasm_validate::Validated;

/// Adds the number of a test, and what it is on.
#[tactic(auto, unfolding(crate::specs::Answer::row_text))]
fn push_row(out: &mut Text, row: Mismatch) -> Result<(), NoMemory>
    ensures { OnOk result (out.new ≡ out.old ++ answers.row_text row) }
{
    match row {
        Mismatch::Instance => out.push_str("1"),
        Mismatch::Memory => out.push_str("2"),
        Mismatch::Global { index } => push_number(out, "3 global ", u64::from(index)),
        Mismatch::Function { frame } => push_number(out, "4 frame ", u64::from(frame)),
        Mismatch::Offset { frame } => push_number(out, "5 frame ", u64::from(frame)),
        Mismatch::Locals { frame } => push_number(out, "6 frame ", u64::from(frame)),
        Mismatch::Operands { frame } => push_number(out, "7 frame ", u64::from(frame)),
        Mismatch::NotACall { frame } => push_number(out, "8 frame ", u64::from(frame)),
        Mismatch::Callee { frame } => push_number(out, "9 frame ", u64::from(frame)),
    }
}

/// The first test that fails.
fn mismatched(alloc: Global, row: Mismatch) -> Result<Outcome, NoMemory>
    ensures value { IfOk result (λ o. o ≡ answers.mismatched row) }
    ensures ended { IfOk result (Ended (λ _. ⊥)) }
{
    let mut text = Text::from_str(alloc, "mismatch ")?;
    push_row(&mut text, row)?;
    text.push_str("\n")?;
    Ok(Outcome {
        status: Status::Mismatch,
        text,
    })
}

/// What commands print on a module, which these bytes spell, and a dump that can be one of it.
fn texts_of(
    alloc: Global,
    bytes: &[u8],
    matched: Matched<'_, '_, '_>,
    commands: &[Text],
) -> Result<Text, NoMemory>
    requires { Spells bytes.now matched.module_ }
    ensures { IfOk result (PrintsAll (subject_of bytes.now matched.entry) 0 commands.now) }
{
    let mut session = Session::new(alloc, bytes, matched)?;
    let text = printed(alloc, &mut session, commands);
    drop(session);
    text
}

/// The texts of commands on a module, which these bytes spell, and a dump that can be one of it.
fn told(
    alloc: Global,
    bytes: &[u8],
    matched: Matched<'_, '_, '_>,
    commands: &[Text],
) -> Result<Outcome, NoMemory>
    requires { Spells bytes.now matched.module_ }
    ensures value { IfOk result (answers.IsTold commands.now bytes.now matched.entry.module_
        matched.entry.dump) }
    ensures ended { IfOk result (Ended (λ _. ⊥)) }
{
    let text = texts_of(alloc, bytes, matched, commands)?;
    Ok(Outcome {
        status: Status::Done,
        text,
    })
}

/// The answer on a dump.
fn judged(
    alloc: Global,
    bytes: &[u8],
    m: &Validated,
    dump: &Dump<'_>,
    commands: &[Text],
) -> Result<Outcome, NoMemory>
    requires spells { Spells bytes.now m.now }
    requires contained { IsContained dump.now }
    requires limited { IsLimited dump.now }
    ensures value { IfOk result (answers.DumpAnswer commands.now bytes.now m.now dump.now) }
    ensures ended { IfOk result (Ended (λ _. ⊥)) }
{
    match matches(alloc, m, dump) {
        Ok(matched) => told(alloc, bytes, matched, commands),
        Err(row) => mismatched(alloc, row),
    }
}

/// The answer on a module, which these bytes spell, and the bytes of a dump.
fn on_dump(
    alloc: Global,
    bytes: &[u8],
    m: &Validated,
    dump_bytes: &[u8],
    commands: &[Text],
) -> Result<Outcome, NoMemory>
    requires { Spells bytes.now m.now }
    ensures value { IfOk result (answers.IfDump (answers.DumpAnswer commands.now bytes.now m.now)
        (dump_from dump_bytes.now)) }
    ensures ended { IfOk result (Ended (λ _. ⊥)) }
{
    match decode_dump(alloc, dump_bytes) {
        Ok(dump) => {
            let answer = judged(alloc, bytes, m, &dump, commands);
            drop(dump);
            answer
        }
        Err(fault) => refused_dump(alloc, fault),
    }
}

/// The answer on the bytes of a module and of a dump.
pub fn on_bytes(
    alloc: Global,
    bytes: &[u8],
    dump_bytes: &[u8],
    commands: &[Text],
) -> Result<Outcome, NoMemory>
    ensures value { IfOk result (answers.BytesAnswer commands.now bytes.now dump_bytes.now) }
    ensures ended { IfOk result (Ended (λ _. ⊥)) }
{
    let loaded = load(alloc, bytes)?;
    match loaded {
        Given::Value(m) => {
            let answer = on_dump(alloc, bytes, &m, dump_bytes, commands);
            drop(m);
            answer
        }
        Given::Refused(refusal) => Ok(refusal),
    }
}

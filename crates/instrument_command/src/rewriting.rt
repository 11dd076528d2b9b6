//! A module that is rewritten, or why it is not, and its weight.

ghost use Rattle.std.specs.Prelude.{◌≡◌, ◌++◌, IfOk, codes, ℕ};
ghost use Rattle.std.specs.Fmt.{decimal};
ghost use Rattle.commands.specs.Texts.{ended};
ghost use Rattle.commands.specs.calls.Given.{IfRefused};
ghost use Rattle.instrument_command.specs.InstrumentAnswer.{instrumented, refused};
ghost use Rattle.instrument_command.specs.calls.Steps.{IsRewritten, Weighs};
ghost use Rattle.wasm_format_laws.specs.calls.Sized.{Sized};
ghost use Rattle.wasm_syntax.specs.Valid.{Valid};
ghost use Rattle.commands.specs.calls.Ended.{Ended};

use causes::NoMemory;
use commands::{Given, Outcome, Status, over_limit, push_number};
use index_map::{IndexMap, weight};
use instrument::{InstrFault, instrument};
use pm_text::Text;
use std::alloc::Global;
use wasm_syntax::Module;
use wasm_validate::Validated;

/// A line that ends with a number.
fn counted(alloc: Global, status: Status, words: &str, number: u64) -> Result<Outcome, NoMemory>
    ensures { IfOk result (λ o. o ≡ ended status (words.now ++ decimal number ++ codes "\n")) }
{
    let mut text = Text::new(alloc);
    push_number(&mut text, words, number)?;
    text.push_str("\n")?;
    Ok(Outcome { status, text })
}

/// Why a module is not rewritten.
fn refused(alloc: Global, fault: InstrFault) -> Result<Outcome, NoMemory>
    ensures value { IfOk result (λ o. o ≡ refused fault) }
    ensures ended { IfOk result (Ended (λ _. ⊥)) }
{
    match fault {
        InstrFault::ImportCollision { index } => {
            counted(
                alloc,
                Status::Collision,
                "collision: import ",
                u64::from(index),
            )
        }
        InstrFault::ExportCollision { index } => {
            counted(
                alloc,
                Status::Collision,
                "collision: export ",
                u64::from(index),
            )
        }
        InstrFault::Limit { what, count } => over_limit(alloc, what, count),
        InstrFault::NoMemory => Err(NoMemory),
    }
}

/// What a valid module is rewritten to, or its refusal for the first cause. The module's lengths
/// are those of a spelling.
pub fn rewrite(alloc: Global, source: &Validated) -> Result<Given<Module>, NoMemory>
    requires valid { Valid source.now }
    requires sized { Sized source.now }
    ensures told { IfOk result (IsRewritten source.now) }
    ensures ended { IfOk result (IfRefused (Ended (λ _. ⊥))) }
{
    match instrument(alloc, source) {
        Ok(other) => Ok(Given::Value(other)),
        Err(fault) => {
            let refusal = refused(alloc, fault)?;
            Ok(Given::Refused(refusal))
        }
    }
}

/// The weight of a valid module, whose lengths are those of a spelling.
fn weight_of(alloc: Global, source: &Validated) -> Result<u64, NoMemory>
    requires { Sized source.now }
    ensures { IfOk result (Weighs source.now) }
{
    let numbers = IndexMap::new(alloc, source.module())?;
    Ok(weight(&numbers, source.heights()))
}

/// The line that tells the weight of a module that was rewritten.
pub(crate) fn weighed(alloc: Global, source: &Validated) -> Result<Outcome, NoMemory>
    requires { Sized source.now }
    ensures { IfOk result (λ o. (w : ℕ) × Weighs source.now w × (o ≡ instrumented w)) }
{
    let number = weight_of(alloc, source)?;
    counted(alloc, Status::Done, "instrumented weight ", number)
}

//! What commands say of a trap, of a result and of a number.

ghost use Rattle.std.specs.Prelude.{◌≡◌, ◌++◌, IfOk, OnOk};
ghost use Rattle.std.specs.Fmt.{decimal};
ghost use Rattle.commands.specs.Lines.{kind_text, kind_line, result_text};

use crate::outcome::push_number;
use crate::values::push_value;
use causes::NoMemory;
use pm_text::Text;
use std::alloc::Global;
use wasm_syntax::Value;

/// The name of a kind of trap, by its number.
pub fn kind_name(kind: u32) -> &'static str
    ensures { result.now ≡ kind_text kind }
{
    match kind {
        1 => "unreachable",
        2 => "integer divide by zero",
        3 => "integer overflow",
        4 => "out of bounds memory access",
        5 => "undefined element",
        6 => "uninitialized element",
        7 => "indirect call type mismatch",
        8 => "call stack exhausted",
        _ => "",
    }
}

/// Adds the line that names a kind of trap, by its number.
///
/// # Errors
///
/// `NoMemory` where memory runs out.
#[tactic(auto, unfolding(crate::specs::Lines::kind_line))]
pub fn push_kind(out: &mut Text, kind: u32) -> Result<(), NoMemory>
    ensures { OnOk result (out.new ≡ out.old ++ kind_line kind) }
{
    push_number(out, "trap ", u64::from(kind))?;
    out.push_str(" ")?;
    out.push_str(kind_name(kind))?;
    out.push_str("\n")
}

/// Adds the result of a function behind a space, where it has one.
///
/// # Errors
///
/// `NoMemory` where memory runs out.
pub fn push_result(out: &mut Text, value: Option<Value>) -> Result<(), NoMemory>
    ensures { OnOk result (out.new ≡ out.old ++ result_text value) }
{
    match value {
        Some(value) => {
            out.push_str(" ")?;
            push_value(out, value)
        }
        None => Ok(()),
    }
}

/// A word with a number in decimal behind it, as it stands.
///
/// # Errors
///
/// `NoMemory` where memory runs out.
pub fn numbered(alloc: Global, word: &str, number: u64) -> Result<Text, NoMemory>
    ensures { IfOk result (λ t. t ≡ word.now ++ decimal number) }
{
    let mut text = Text::new(alloc);
    push_number(&mut text, word, number)?;
    Ok(text)
}

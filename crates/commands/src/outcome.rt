//! How a command ends, and the lines that commands have in common.

ghost use Rattle.std.specs.Prelude.{◌≡◌, ◌++◌, IfOk, OnOk};
ghost use Rattle.std.specs.Fmt.{decimal};
ghost use Rattle.commands.specs.Texts.{ended, file_line, limit_text, over_limit};

use crate::status::Status;
use causes::NoMemory;
use pm_text::Text;
use std::alloc::Global;
use wasm_syntax::Quantity;

/// A status, and the text that goes to the output.
#[derive(Drop)]
pub struct Outcome {
    pub status: Status,
    pub text: Text,
}

/// Adds a word and a number behind it.
pub fn push_number(out: &mut Text, word: &str, number: u64) -> Result<(), NoMemory>
    ensures { OnOk result (out.new ≡ out.old ++ word.now ++ decimal number) }
{
    out.push_str(word)?;
    out.push_decimal(i128::from(number))
}

pub fn plain(alloc: Global, status: Status, text: &str) -> Result<Outcome, NoMemory>
    ensures { IfOk result (λ o. o ≡ ended status text.now) }
{
    let text = Text::from_str(alloc, text)?;
    Ok(Outcome { status, text })
}

/// A line that ends with the name of a file.
pub fn about_file(
    alloc: Global,
    status: Status,
    words: &str,
    file: &str,
) -> Result<Outcome, NoMemory>
    ensures { IfOk result (λ o. o ≡ ended status (file_line words.now file.now)) }
{
    let mut text = Text::from_str(alloc, words)?;
    text.push_quoted(file.as_bytes())?;
    text.push_str("\n")?;
    Ok(Outcome { status, text })
}

#[tactic(auto, unfolding(crate::specs::Texts::limit_text))]
fn push_limit(out: &mut Text, what: Quantity, count: u64) -> Result<(), NoMemory>
    ensures { OnOk result (out.new ≡ out.old ++ limit_text what count) }
{
    out.push_str("limit: ")?;
    out.push_str(what.text())?;
    push_number(out, " ", count)?;
    push_number(out, " over ", what.limit())?;
    out.push_str("\n")
}

/// A quantity that passes its number.
pub fn over_limit(alloc: Global, what: Quantity, count: u64) -> Result<Outcome, NoMemory>
    ensures { IfOk result (λ o. o ≡ over_limit what count) }
{
    let mut text = Text::new(alloc);
    push_limit(&mut text, what, count)?;
    Ok(Outcome {
        status: Status::Limit,
        text,
    })
}

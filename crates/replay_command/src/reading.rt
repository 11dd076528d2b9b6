//! Commands read from a text.

ghost use Rattle.std.specs.Prelude.{◌≡◌, ◌∷◌, true};
ghost use Rattle.replay_command.specs.ReplayText.{commands_in};
ghost use Rattle.replay_command.specs.inner.Steps.{BeginsWithLook, IsShorter, left_in};

use crate::{Move, read_move};

/// The first command, and the text behind the semicolon after it, where there is one.
pub(crate) fn first_command(text: &str) -> (&str, Option<&str>)
    ensures commands { commands_in text.now ≡ result.0.now ∷ left_in result.1 }
    ensures shorter { IsShorter result.1 text.now }
{
    match text.split_once(';') {
        Some(parts) => (parts.0, Some(parts.1)),
        None => (text, None),
    }
}

/// Whether the first command of a text looks at the state that is shown.
pub(crate) fn begins_with_look(text: &str) -> bool
    ensures { result ≡ true → BeginsWithLook text.now }
{
    let (given, _) = first_command(text);
    match read_move(given) {
        Move::Look => true,
        _ => false,
    }
}

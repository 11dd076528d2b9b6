//! A law of the definitions, as the contract of a function with an empty body.

ghost use Rattle.std.specs.Prelude.{◌≡◌, ℕ, List};
ghost use Rattle.pm_outside.specs.Contents.{Contents};
ghost use Rattle.wasm_syntax.specs.declared.host.Served.{Served};
ghost use Rattle.host_set.specs.Sets.{DeviceState};
ghost use Rattle.pm_outside.specs.Held.{Writes};
ghost use Rattle.pm_cli.specs.Answer.{IsAnswer, SameAnswer, SameWrites};
ghost use Rattle.pm_cli.specs.Words.{command};
ghost use Rattle.commands.specs.declared.outcome.Outcome.{Outcome};

/// A list of words has at most one status and text, and writes the same files. What devices have
/// logged, the script and what files hold fix which replies were given. The bytes that `instrument`
/// writes, and those of the second file of `selftest`, are all those that are admitted; on these
/// the number of steps depends that `selftest` tells, and nothing else of its text.
pub fn one_answer()
    ensures { (before after : List DeviceState) (words : List (List ℕ)) (first later : Contents)
        (given other : List Served) (x y : Writes) (a b : Outcome)
        → IsAnswer before after words first later given x a
        → IsAnswer before after words first later other y b
        → (given ≡ other) × SameAnswer (command words) x y a b × SameWrites (command words) x y }
{}

//! Laws of self-tests.

ghost use Rattle.std.specs.Prelude.{◌≡◌, ◌≤◌, ℕ, List};
ghost use Rattle.wasm_syntax.specs.declared.module.ModuleParts.{ModuleParts as Parts};
ghost use Rattle.wasm_bytes.specs.Laws.{IsBytes};
ghost use Rattle.wasm_encode.specs.Encoding.{encoding};
ghost use Rattle.rewrite_promise.specs.Admitted.{Admits};
ghost use Rattle.selftest_command.specs.Selftest.{selftest};
ghost use Rattle.selftest_command.specs.Handing.{HandsAllOver, IsAccepted, IsDecoded};

/// What the encoding of a self-test is decoded as is valid, and nothing hinders its rewriting.
pub fn selftests_are_accepted()
    ensures { (n : ℕ) (m : Parts) → 1 ≤ n → n ≤ 900 → IsBytes (encoding (selftest n))
        → IsDecoded n m → IsAccepted m }
{}

/// The module that it is decoded as divides by zero under as many frames as there are functions.
/// Whatever bytes are admitted as what it is rewritten to, the module that they spell hands over
/// the dump of that, within the default number of steps.
pub fn rewritings_hand_over()
    ensures { (n : ℕ) (m : Parts) (bytes : List ℕ) (a : Admits m bytes) → 1 ≤ n → n ≤ 900
        → IsBytes (encoding (selftest n)) → IsDecoded n m → HandsAllOver n m a.decoded }
{}

//! Laws of the definitions: each is the contract of a function with an empty body.

ghost use Rattle.std.specs.Prelude.{◌≡◌, ℕ, List};
ghost use Rattle.wasm_bytes.specs.Laws.{IsBytes};
ghost use Rattle.dwarf_expr.specs.declared.operators.PlacedOperator.{PlacedOperator};
ghost use Rattle.dwarf_expr.specs.Decode.{AreOperators, operators};

/// The operators whose meaning counts are those that the bytes spell, and no other list is.
pub fn operators_of_bytes()
    ensures are { (bytes : List ℕ) → IsBytes bytes → AreOperators (operators bytes) 0 bytes }
    ensures only { (bytes : List ℕ) (xs : List PlacedOperator) → IsBytes bytes
        → AreOperators xs 0 bytes → xs ≡ operators bytes }
{}

//! Laws of the definitions.

ghost use Rattle.std.specs.Prelude.{◌≡◌, ℕ, List, Ok};
ghost use Rattle.wasm_syntax.specs.declared.module.ModuleParts.{ModuleParts as Parts};
ghost use Rattle.wasm_bytes.specs.Laws.{IsBytes};
ghost use Rattle.wasm_decode.specs.Decode.{module_from};
ghost use Rattle.wasm_decode.specs.calls.Meaning.{IsModuleOf};
ghost use Rattle.wasm_format_laws.specs.calls.Sized.{Sized};

/// A module that bytes spell is sized, so that one from `decode` is.
pub fn spelled_is_sized()
    ensures { (bytes : List ℕ) (m : Parts) → IsModuleOf bytes m → Sized m }
{}

/// What decoding gives is sized.
pub fn decoded_is_sized()
    ensures { (bytes : List ℕ) (m : Parts) → IsBytes bytes → module_from bytes ≡ Ok m → Sized m }
{}

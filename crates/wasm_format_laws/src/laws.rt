//! Laws of the binary format of modules.

ghost use Rattle.std.specs.Prelude.{◌≡◌, ℕ, List, ◌⊎◌, ◌≤◌, length};
ghost use Rattle.wasm_syntax.specs.declared.module.ModuleParts.{ModuleParts as Parts};
ghost use Rattle.wasm_syntax.specs.Module.{IsModule};
ghost use Rattle.wasm_syntax.specs.Sizes.{WithinLimits};
ghost use Rattle.wasm_bytes.specs.Laws.{IsBytes};
ghost use Rattle.wasm_format.specs.declared.module.SpelledModule.{SpelledModule as Read};
ghost use Rattle.wasm_format.specs.calls.Grammar.{module_file};
ghost use Rattle.wasm_format.specs.calls.Breaking.{module_stops};
ghost use Rattle.wasm_encode.specs.Encoding.{encoding};
ghost use Rattle.wasm_encode.specs.calls.Fits.{FitsModule};
ghost use Rattle.wasm_encode.specs.calls.SameModule.{SpellsSame};
ghost use Rattle.wasm_format_laws.specs.calls.Laws.{Reads, Breaks, DecodesSame};

/// Each input spells one module (Core 5.5.15), or is broken at one offset, and never both.
pub fn one_reading()
    ensures one_module { (bytes : List ℕ) (s t : Read) → module_file s 0 bytes
        → module_file t 0 bytes → s ≡ t }
    ensures one_break { (bytes : List ℕ) (a b : ℕ) → IsBytes bytes → module_stops 0 bytes a
        → module_stops 0 bytes b → a ≡ b }
    ensures not_both { (bytes : List ℕ) → IsBytes bytes → Reads bytes → Breaks bytes → ⊥ }
    ensures either { (bytes : List ℕ) → IsBytes bytes → Reads bytes ⊎ Breaks bytes }
{}

/// Within the limits of decoding, the encoding of a module is decoded as a module with the same
/// code. So are other bytes that spell that. The numbers of a value of `Module` always fit their
/// types.
pub fn decoding_the_encoding()
    ensures encoded { (m : Parts) → IsModule m → FitsModule m → WithinLimits m
        → length (encoding m) ≤ 134_217_728 → DecodesSame m (encoding m) }
    ensures spelled { (m : Parts) (bytes : List ℕ) → WithinLimits m → length bytes ≤ 134_217_728
        → SpellsSame m bytes → DecodesSame m bytes }
{}

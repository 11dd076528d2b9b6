//! How long the rewritten module is, against the weight of the module.

ghost use Rattle.std.specs.Prelude.{◌≡◌, ◌≤◌, ℕ, List, [], length, Ok};
ghost use Rattle.wasm_syntax.specs.declared.module.ModuleParts.{ModuleParts as Parts};
ghost use Rattle.wasm_syntax.specs.Sizes.{WithinLimits};
ghost use Rattle.wasm_bytes.specs.Laws.{IsBytes};
ghost use Rattle.wasm_decode.specs.Decode.{module_from};
ghost use Rattle.wasm_decode.specs.calls.Meaning.{IsModuleOf};
ghost use Rattle.wasm_encode.specs.Encoding.{encoding};
ghost use Rattle.wasm_encode.specs.calls.Fits.{FitsModule};
ghost use Rattle.wasm_format_laws.specs.calls.Sized.{Sized};
ghost use Rattle.rewrite_bodies.specs.Numbering.{import_count};
ghost use Rattle.wasm_syntax.specs.SameCode.{code_alone};
ghost use Rattle.rewrite_modules.specs.calls.Instrument.{new_module};
ghost use Rattle.rewrite_modules.specs.Instrumentable.{Instrumentable, program_of};
ghost use Rattle.rewrite_modules.specs.Weight.{bodies_weight, weight};
ghost use Rattle.rewrite_promise.specs.calls.Light.{BodiesLight, rewritten_lengths, SmallOffsets};

/// The live instructions of each body weigh at most what the weight of the module, by the heights
/// of its operands, gives to all instructions of the body; and the rewritten bodies together take
/// at most what the weight gives to the bodies.
pub fn rewritten_bodies_weigh()
    ensures each { (m : Parts) (these : Instrumentable m) → Sized m
        → BodiesLight (program_of m these.whole) these.lightness.heights }
    ensures together { (m : Parts) (these : Instrumentable m) → Sized m
        → rewritten_lengths (program_of m these.whole) (import_count m) m.bodies
        ≤ bodies_weight m these.lightness.heights 0 m.bodies }
{}

/// The shortest encoding of the rewritten module takes at most as many bytes as the module weighs;
/// so does that of each module that is the same but for offsets, lengths and custom sections.
pub fn rewritten_modules_weigh()
    ensures { (m other : Parts) (these : Instrumentable m) → Sized m
        → code_alone (new_module (program_of m these.whole)) ≡ code_alone other
        → length (encoding other) ≤ weight m these.lightness.heights }
{}

/// So it is within the limits of the decoder: its lists are short, locals, nesting, table and
/// memory are low, and its bytes are not too many.
pub fn rewritten_modules_are_decodable()
    ensures limits { (m other : Parts) (these : Instrumentable m) → Sized m
        → code_alone (new_module (program_of m these.whole)) ≡ code_alone other
        → other.customs ≡ [] → WithinLimits other }
    ensures bytes { (m other : Parts) (these : Instrumentable m) → Sized m
        → code_alone (new_module (program_of m these.whole)) ≡ code_alone other
        → length (encoding other) ≤ 134_217_728 }
{}

/// The offset of each access is a number of 32 bits where the numbers of a module have the ranges
/// of their types, and in each module that bytes spell, so that decoding gives no other.
pub fn offsets_are_small()
    ensures fitting { (m : Parts) → FitsModule m → SmallOffsets m }
    ensures spelled { (bytes : List ℕ) (m : Parts) → IsModuleOf bytes m → SmallOffsets m }
    ensures decoded { (bytes : List ℕ) (m : Parts) → IsBytes bytes → module_from bytes ≡ Ok m
        → SmallOffsets m }
{}

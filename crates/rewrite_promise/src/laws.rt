//! What is promised of each module that is rewritten.

ghost use Rattle.std.specs.Prelude.{◌≡◌, ℕ, List, Ok};
ghost use Rattle.wasm_syntax.specs.declared.module.ModuleParts.{ModuleParts as Parts};
ghost use Rattle.wasm_syntax.specs.Module.{Program, IsModule};
ghost use Rattle.wasm_syntax.specs.Sizes.{WithinLimits};
ghost use Rattle.wasm_syntax.specs.Valid.{Valid};
ghost use Rattle.wasm_bytes.specs.Laws.{IsBytes};
ghost use Rattle.wasm_decode.specs.Decode.{module_from};
ghost use Rattle.wasm_encode.specs.Encoding.{encoding};
ghost use Rattle.wasm_encode.specs.calls.Fits.{FitsModule};
ghost use Rattle.wasm_encode.specs.calls.SameModule.{SpellsSame};
ghost use Rattle.wasm_syntax.specs.SameCode.{code_alone};
ghost use Rattle.rewrite_modules.specs.calls.Instrument.{new_module};
ghost use Rattle.rewrite_modules.specs.Instrumentable.{LightEnough};
ghost use Rattle.rewrite_modules.specs.Multiple.{multiple};
ghost use Rattle.rewrite_modules.specs.calls.Example.{divider};
ghost use Rattle.rewrite_modules.specs.Weight.{AreHeights, weight};
ghost use Rattle.rewrite_promise.specs.calls.Example.{divider_bytes};
ghost use Rattle.rewrite_promise.specs.calls.Layers.{Layered};
ghost use Rattle.rewrite_promise.specs.calls.Promise.{Accepted, AcceptedBytes, IsRewriting};
ghost use Rattle.rewrite_promise.specs.calls.Promise.{Promised, DecodesAsRewriting};
ghost use Rattle.rewrite_promise.specs.Outside.{KeepsOutside};
ghost use Rattle.rewrite_promise.specs.Admitted.{Admits};

/// The rewritten module shows those outside what the module shows, and so does each one that is the
/// same but for offsets, lengths and custom sections: its imports are those of the module and then
/// the collector's three, its exports those of the module and then its memory. Types, tables,
/// memories and segments are the module's, and its globals come first.
pub fn interface_is_kept()
    ensures { (p : Program) (other : Parts) → code_alone (new_module p) ≡ code_alone other
        → KeepsOutside p.module_ other }
{}

/// A valid module has one weight: operand heights are what they are.
pub fn heights_give_one_weight()
    ensures { (m : Parts) (one other : List (List ℕ)) → Valid m → AreHeights m one
        → AreHeights m other → weight m one ≡ weight m other }
{}

/// And one bound on the steps.
pub fn heights_give_one_multiple()
    ensures { (m : Parts) (one other : List (List ℕ)) → Valid m → AreHeights m one
        → AreHeights m other → multiple m one ≡ multiple m other }
{}

/// What decoding gives has what the type of a module keeps, and is within the limits of the
/// decoder. Where the bytes are accepted, the module is.
pub fn decoded_modules_are_accepted()
    ensures whole { (bytes : List ℕ) (m : Parts) → IsBytes bytes → module_from bytes ≡ Ok m
        → IsModule m }
    ensures limits { (bytes : List ℕ) (m : Parts) → IsBytes bytes → module_from bytes ≡ Ok m
        → WithinLimits m }
    ensures accepted { (bytes : List ℕ) (m : Parts) → AcceptedBytes bytes m → Accepted m }
{}

/// The theorem of rewriting, whole: each module that is the rewriting of an accepted one, but for
/// offsets, lengths and custom sections, keeps all promises; so does each rewriting of what
/// accepted bytes are decoded as.
pub fn rewriting_promises()
    ensures modules { (m other : Parts) → Accepted m → IsRewriting m other → Promised m other }
    ensures bytes { (bytes : List ℕ) (m other : Parts) → AcceptedBytes bytes m → IsRewriting m other
        → Promised m other }
{}

/// What the layers promise of each: every step is followed, and at a trap each frame and then the
/// wrapper hand over their values in at most half of the bound on the steps; each body is well
/// typed, within the limits of the decoder, and takes at most its share of the weight.
pub fn layers_promise()
    ensures { (m other : Parts) → Accepted m → IsRewriting m other → Layered m other }
{}

/// Each accepted module has such a rewriting: a module whose code is that of the rewritten one, at
/// ascending offsets.
pub fn rewritings_are_there()
    ensures { (m : Parts) → Accepted m → (other : Parts) × IsRewriting m other × Promised m other }
{}

/// What is written of a rewriting is decoded as a rewriting, so that it keeps all promises, and
/// takes at most the weight of the module. The numbers of a value of `Module` always fit their
/// types, what is written of it is bytes, and encoding gives bytes that spell the same.
pub fn written_rewritings_are_decoded()
    ensures encoded { (m other : Parts) → Accepted m → IsRewriting m other → FitsModule other
        → IsBytes (encoding other) → DecodesAsRewriting m (encoding other) }
    ensures spelled { (m other : Parts) → Accepted m → IsRewriting m other
        → SpellsSame other (encoding other) → IsBytes (encoding other)
        → DecodesAsRewriting m (encoding other) }
{}

/// What is written of a promised module is admitted: so a promised module is all that the writer of
/// a file has to be given.
pub fn written_promises_are_admitted()
    ensures encoded { (m other : Parts) → LightEnough m → Promised m other → FitsModule other
        → IsBytes (encoding other) → Admits m (encoding other) }
    ensures spelled { (m other : Parts) → LightEnough m → Promised m other
        → SpellsSame other (encoding other) → IsBytes (encoding other) → Admits m (encoding other) }
{}

/// The premises can be met: the bytes of the example are decoded as it, and accepted.
pub fn premises_are_met()
    ensures { AcceptedBytes divider_bytes divider.module_ }
{}

/// The promises are kept by bytes: some are decoded as a rewriting of the example.
pub fn an_example_is_rewritten()
    ensures { (bytes : List ℕ) × DecodesAsRewriting divider.module_ bytes }
{}

/// And admitted.
pub fn an_example_is_admitted()
    ensures { (bytes : List ℕ) × Admits divider.module_ bytes }
{}

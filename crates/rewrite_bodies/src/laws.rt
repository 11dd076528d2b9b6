//! What guards and rewritten bodies promise.

ghost use Rattle.std.specs.Prelude.{ℕ, List};
ghost use Rattle.wasm_syntax.specs.declared.value.ValType.{ValType};
ghost use Rattle.wasm_syntax.specs.declared.instruction.Basic.{Basic};
ghost use Rattle.wasm_syntax.specs.Machine.{Engine};
ghost use Rattle.rewrite_bodies.specs.calls.Agreement.{Wrap};
ghost use Rattle.rewrite_bodies.specs.inner.Promises.{GuardTells, StepFollows};
ghost use Rattle.rewrite_bodies.specs.calls.Slots.{Ctx};
ghost use Rattle.rewrite_bodies.specs.calls.Typed.{BodyTyped};
ghost use Rattle.rewrite_bodies.specs.calls.Length.{BodyShort};

/// A guard changes nothing, and leaves the kind with which its instruction traps, or 0.
pub fn guards_tell_kinds()
    ensures { (M : Engine) (i : Basic) → GuardTells M i }
{}

/// Each step of the original is some steps of the rewritten module, and at a trap all frames hand
/// over their values.
pub fn each_step_is_followed()
    ensures { (M M' : Engine) (E : ℕ) (gl : List ValType) (W : Wrap) → StepFollows M M' E gl W }
{}

/// The rewriting of a well-typed body is well typed in a module that has what its code names.
pub fn rewritten_bodies_are_typed()
    ensures { (C : Ctx) → BodyTyped C }
{}

/// The rewriting of a well-typed body takes at most the bytes that the weight of its module gives
/// to its live instructions and to its function.
pub fn rewritten_bodies_are_short()
    ensures { (C : Ctx) → BodyShort C }
{}

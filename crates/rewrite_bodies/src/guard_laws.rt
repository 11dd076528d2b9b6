//! What the guards of the rewriting leave, their types, and the bytes that they take.

ghost use Rattle.std.specs.Prelude.{◌≡◌, ℕ, ◌≤◌, true, List, length};
ghost use Rattle.wasm_syntax.specs.declared.instruction.Basic.{Basic};
ghost use Rattle.rewrite_bodies.specs.calls.Slots.{Place, Ctx};
ghost use Rattle.rewrite_bodies.specs.calls.Pieces.{const, i32, call, fetch};
ghost use Rattle.rewrite_bodies.specs.calls.Guards.{can_trap, guard, kind};
ghost use Rattle.rewrite_bodies.specs.calls.Verdicts.{IsGuard, IsKind, IsGuardOfUnreachable, IsGuardOfEntry};

/// The guard of an instruction that can trap, on operands that have their slots.
pub fn guards_are_guards()
    ensures { (C : Ctx) (i : Basic) (places : List Place) → can_trap i ≡ true
        → length places ≤ C.slots → IsGuard C i places (guard C i places) }
{}

/// And the piece that says with which kind it does.
pub fn kinds_are_kinds()
    ensures { (C : Ctx) (i : Basic) (places : List Place) → can_trap i ≡ true
        → length places ≤ C.slots → IsKind C i places (kind C i places) }
{}

/// The guard of `unreachable` is its kind.
pub fn kind_one_guards_unreachable()
    ensures { (C : Ctx) → IsGuardOfUnreachable C (const (i32 1)) }
{}

/// The guard of `call_indirect` calls the helper of the type on the entry's number.
pub fn helpers_guard_entries()
    ensures { (C : Ctx) (ftype f : ℕ) (entry : Place) (height : ℕ) → height ≤ C.slots
        → IsGuardOfEntry C ftype f entry height (λ k. fetch C entry height (call f k)) }
{}

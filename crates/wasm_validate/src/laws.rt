//! What validation answers is unique: laws of the definitions, each the contract of a function with
//! an empty body.

ghost use Rattle.std.specs.Prelude.{◌≡◌, ℕ, Result, Err};
ghost use Rattle.wasm_syntax.specs.declared.module.ModuleParts.{ModuleParts as Parts};
ghost use Rattle.wasm_syntax.specs.declared.place.Place.{Place as ModulePlace};
ghost use Rattle.wasm_syntax.specs.Valid.{Valid, FirstInvalid};
ghost use Rattle.wasm_validate.specs.declared.validated.ValidateFault.{ValidateFault as Fault};
ghost use Rattle.wasm_validate.specs.declared.validated.ValidateFault.TheVariants.{NoMemory as want_of_memory};
ghost use Rattle.wasm_validate.specs.calls.Answers.{Answered};
ghost use Rattle.wasm_validate.specs.Heights.{AllLow, FirstHigh};

/// A module has at most one first place that is not valid.
pub fn one_first_invalid()
    ensures { (m : Parts) (p q : ModulePlace) → FirstInvalid m p → FirstInvalid m q → p ≡ q }
{}

/// A valid module has no place that is not valid.
pub fn valid_is_not_invalid()
    ensures { (m : Parts) (place : ModulePlace) → Valid m → FirstInvalid m place → ⊥ }
{}

/// The first function with too many operands has one greatest number of them.
pub fn one_first_high()
    ensures { (m : Parts) (a b : ℕ) → FirstHigh m a → FirstHigh m b → a ≡ b }
{}

/// Where no function has too many operands, none is the first.
pub fn low_is_not_high()
    ensures { (m : Parts) (count : ℕ) → AllLow m → FirstHigh m count → ⊥ }
{}

/// Two answers to one module are the same, want of memory aside.
pub fn one_answer()
    ensures { (m : Parts) (a b : Result Parts Fault) → Answered a m → Answered b m
        → (a ≡ Err want_of_memory → ⊥) → (b ≡ Err want_of_memory → ⊥) → a ≡ b }
{}

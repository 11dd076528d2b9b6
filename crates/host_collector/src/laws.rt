//! Laws of calls of the collector.

ghost use Rattle.std.specs.Prelude.{◌≡◌, ◌⊎◌, ℕ, List, Option};
ghost use Rattle.wasm_syntax.specs.declared.host.CollectorCall.{CollectorCall as Call};
ghost use Rattle.dump_write.specs.Collected.{Whole, collected_dump};
ghost use Rattle.host_collector.specs.Torn.{IsFirstOffending};

/// Calls have at most one first offending call.
pub fn one_offending_call()
    ensures { (calls : List Call) (a b : ℕ) → IsFirstOffending calls a → IsFirstOffending calls b
        → a ≡ b }
{}

/// Calls are whole, or have a first offending call.
pub fn whole_or_offending()
    ensures { (calls : List Call) → Whole calls ⊎ ((at : ℕ) × IsFirstOffending calls at) }
{}

/// Whole calls are so in one way: they have one kind and one dump.
pub fn one_collected_dump()
    ensures kind { (calls : List Call) (v w : Whole calls) → v.kind ≡ w.kind }
    ensures dump { (calls : List Call) (v w : Whole calls) (memory : Option (List ℕ))
        (name : List ℕ) → collected_dump v memory name ≡ collected_dump w memory name }
{}

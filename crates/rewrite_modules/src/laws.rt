//! What the rewriting promises.

ghost use Rattle.std.specs.Prelude.{◌≡◌, ℕ, ◌+◌, Bool, List, map, Some};
ghost use Rattle.wasm_syntax.specs.declared.host.Reply.{Reply as HostReply};
ghost use Rattle.wasm_syntax.specs.declared.module.ModuleParts.{ModuleParts as Parts};
ghost use Rattle.wasm_syntax.specs.Module.{Program, IsProgram, IsModule, defined, function_at};
ghost use Rattle.wasm_syntax.specs.Run.{Invocation, run};
ghost use Rattle.rewrite_modules.specs.calls.Bare.{bare, bare_ran};
ghost use Rattle.wasm_syntax.specs.SameCode.{code_alone};
ghost use Rattle.rewrite_modules.specs.calls.Given.{Given};
ghost use Rattle.rewrite_modules.specs.Instrumentable.{Instrumentable, program_of};
ghost use Rattle.rewrite_modules.specs.calls.Instrument.{instrument, new_module};
ghost use Rattle.rewrite_modules.specs.Interface.{KeepsInterface, KeepsTable};
ghost use Rattle.rewrite_modules.specs.Simulates.{Simulates};
ghost use Rattle.rewrite_modules.specs.calls.Example.{divider, HandsOver, Weighs, Multiplies};
ghost use Rattle.rewrite_modules.specs.calls.LowSizes.{LowSizes, LowHeights};
ghost use Rattle.rewrite_modules.specs.Weight.{height_at, AreHeights};
ghost use Rattle.rewrite_modules.specs.Multiple.{most_locals, highest, most_operands, multiple, half};
ghost use Rattle.rewrite_modules.specs.calls.Unwinding.{Unwinds};
ghost use Rattle.rewrite_bodies.specs.Numbering.{import_count};
ghost use Rattle.rewrite_bodies.specs.calls.Slots.{greatest, slots_of};
ghost use Rattle.wasm_syntax.specs.Tree.{Tree};
ghost use Rattle.wasm_syntax.specs.declared.parts.Body.{Body as FunctionBody};
ghost use Rattle.wasm_syntax.specs.declared.parts.FuncType.{FuncType as Signature};
ghost use Rattle.wasm_syntax.specs.Valid.{Valid};

/// The rewritten module does what the module does: for every list of invocations, with any
/// arguments, replies, depth and number of steps, it makes the same host calls and each invocation
/// comes to the same end. Where one traps, its collector calls hand over the dump of the original
/// at that trap. It takes at least as many steps as the original, and at most the stated multiple.
pub fn instrumented_module_simulates()
    ensures { (p : Program) → Given p → (heights : List (List ℕ)) → AreHeights p.module_ heights
        → Simulates (multiple p.module_ heights) p (instrument p) }
{}

/// So does each program whose module is the rewritten one but for offsets, lengths and custom
/// sections.
pub fn rewritten_programs_simulate()
    ensures { (p other : Program) → Given p → IsProgram other
        → code_alone other.module_ ≡ code_alone (new_module p) → (heights : List (List ℕ))
        → AreHeights p.module_ heights → Simulates (multiple p.module_ heights) p other }
{}

/// Each body of the rewritten module writes out its tree, but for offsets: the flat code is that of
/// the trees.
pub fn rewritten_bodies_write_their_trees()
    ensures { (p : Program) → Given p → IsProgram (bare (instrument p)) }
{}

/// Validity and the limits give the premises.
pub fn instrumentable_modules_are_given()
    ensures { (m : Parts) (these : Instrumentable m) → Given (program_of m these.whole) }
{}

/// All together, for modules alone: a module that is the rewritten one but for offsets, lengths and
/// custom sections does what the original does.
pub fn rewritten_modules_simulate()
    ensures { (m other : Parts) (these : Instrumentable m) (whole : IsModule other)
        → code_alone other ≡ code_alone (new_module (program_of m these.whole))
        → (heights : List (List ℕ)) → AreHeights m heights
        → Simulates (multiple m heights) (program_of m these.whole) (program_of other whole) }
{}

/// Offsets, lengths and custom sections change no run: they are only shown.
pub fn offsets_change_no_run()
    ensures { (p other : Program) (collecting : Bool) (invocations : List Invocation)
        (replies : List HostReply) (depth n : ℕ) → bare p ≡ bare other
        → map bare_ran (run p collecting invocations replies depth n)
        ≡ map bare_ran (run other collecting invocations replies depth n) }
{}

/// The imports are those of the module and then the collector's three, and the exports those of the
/// module and then its memory. The table is that of the module, or twice as long, for a host that
/// sees it.
pub fn interface_is_kept()
    ensures interface { (p : Program) → KeepsInterface p.module_ (new_module p) }
    ensures table { (p : Program) → KeepsTable p.module_ (new_module p) }
{}

/// The rewritten module is valid, and so is each one that is the same but for offsets, lengths and
/// custom sections.
pub fn rewritten_modules_are_valid()
    ensures { (m other : Parts) (these : Instrumentable m) (whole : IsModule other)
        → code_alone (new_module (program_of m these.whole)) ≡ code_alone other → Valid other }
{}

/// They are within the limits of the decoder on locals, nesting, table and memory.
pub fn rewritten_modules_are_within_limits()
    ensures { (m other : Parts) (these : Instrumentable m)
        → code_alone (new_module (program_of m these.whole)) ≡ code_alone other → LowSizes other }
{}

/// From each configuration that agrees with one of the original, frames hand over their values
/// where the original traps, and the wrapper ends in a trap, with the flag down: each frame in at
/// most half of the bound on the steps, and the wrapper too. Worlds at the start agree, and
/// wrappers lead to configurations that do.
pub fn traps_unwind()
    ensures { (m : Parts) (these : Instrumentable m) (heights : List (List ℕ))
        → AreHeights m heights → (depth : ℕ)
        → Unwinds (program_of m these.whole) (half m heights) depth }
{}

/// No function of them has more operands than validation admits: at most as many as the parameters
/// of a function, and a few.
pub fn rewritten_modules_have_low_heights()
    ensures { (m other : Parts) (these : Instrumentable m) (whole : IsModule other)
        → code_alone (new_module (program_of m these.whole)) ≡ code_alone other
        → LowHeights other }
{}

/// Each function has as many slots as its greatest operand height in live code, so the bound on the
/// steps is that of locals, heights and globals.
pub fn slots_are_heights()
    ensures greatest { (m : Parts) (these : Instrumentable m) (heights : List (List ℕ))
        → AreHeights m heights → (greatest (program_of m these.whole)).1
        ≡ most_operands heights 0 m.bodies }
    ensures locals { (m : Parts) (these : Instrumentable m) (heights : List (List ℕ))
        → AreHeights m heights → (greatest (program_of m these.whole)).0
        ≡ most_locals m 0 m.bodies }
    ensures each { (m : Parts) (these : Instrumentable m) (heights : List (List ℕ))
        → AreHeights m heights → (i : ℕ) (body : FunctionBody) (tree : Tree) (ftype : Signature)
        → function_at (program_of m these.whole) (import_count m + i)
        ≡ Some (defined body tree ftype)
        → slots_of (program_of m these.whole) (import_count m + i) body tree ftype
        ≡ highest (height_at heights i) 0 body.ops }
{}

/// The module of the example weighs what the sum of its parts is by hand, and so is the bound on
/// the steps.
pub fn weight_of_the_example()
    ensures weight { Weighs }
    ensures multiple { Multiplies }
{}

/// The premises can be met.
pub fn given_is_met()
    ensures { Given divider }
{}

/// So can validity and the limits.
pub fn limits_are_met()
    ensures { Instrumentable divider.module_ }
{}

/// A division by zero, and then one that ends: the rewritten program hands over the dump of the
/// trap, ends in a trap of its own, and then does the second division.
pub fn division_by_zero_is_handed_over()
    ensures { HandsOver }
{}

/// A copy does not do: with whatever multiple of the steps, a program that traps does not simulate
/// itself.
pub fn no_copy_simulates()
    ensures { (factor : ℕ) → Simulates factor divider divider → ⊥ }
{}

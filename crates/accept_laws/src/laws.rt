//! Laws of the definitions.

ghost use Rattle.std.specs.Prelude.{◌≡◌, ◌≤◌, ◌+◌, ℕ, length, Bool, true, false, List, Ok, Result};
ghost use Rattle.wasm_syntax.specs.declared.host.Reply.{Reply as HostReply};
ghost use Rattle.wasm_syntax.specs.declared.module.ModuleParts.{ModuleParts as Parts};
ghost use Rattle.wasm_syntax.specs.declared.quantity.Quantity.TheVariants.{DumpFrames};
ghost use Rattle.wasm_syntax.specs.Quantity.{greatest};
ghost use Rattle.wasm_syntax.specs.Module.{Program, IsProgram, IsModule};
ghost use Rattle.wasm_syntax.specs.Sizes.{WithinLimits};
ghost use Rattle.wasm_syntax.specs.Valid.{Valid};
ghost use Rattle.wasm_syntax.specs.Run.{Invocation, run};
ghost use Rattle.wasm_bytes.specs.Laws.{IsBytes};
ghost use Rattle.wasm_decode.specs.Decode.{module_from};
ghost use Rattle.wasm_decode.specs.calls.Meaning.{IsModuleOf};
ghost use Rattle.dump_format.specs.declared.dump.Dump.{Dump as CoreDump};
ghost use Rattle.dump_match.specs.declared.mismatch.Mismatch.{Mismatch as FirstTest};
ghost use Rattle.dump_match.specs.Matching.{Matches};
ghost use Rattle.dump_match.specs.Judged.{Match, Judged};
ghost use Rattle.rewrite_modules.specs.Instrumentable.{program_of};
ghost use Rattle.rewrite_modules.specs.Simulates.{Simulates, NoneDeep};
ghost use Rattle.rewrite_promise.specs.Admitted.{Admits};
ghost use Rattle.accept_laws.specs.calls.Ranges.{InRanges};
ghost use Rattle.accept_laws.specs.calls.Accepted.{TrapsAccepted, AllHandOver};

/// The dump of each trap of a valid module, of at most so many bytes as dumps may have, is accepted
/// with that module, whatever the invocations, their arguments, the replies and the number of
/// steps, where no more frames may stand than a dump may have.
pub fn written_dumps_are_accepted()
    ensures modules { (p : Program) (collecting : Bool) (invocations : List Invocation)
        (replies : List HostReply) (depth n : ℕ) → IsProgram p → IsModule p.module_
        → Valid p.module_ → WithinLimits p.module_ → InRanges p.module_
        → depth ≤ greatest DumpFrames
        → TrapsAccepted p.module_ (run p collecting invocations replies depth n) }
    ensures decoded { (bytes : List ℕ) (p : Program) (collecting : Bool)
        (invocations : List Invocation) (replies : List HostReply) (depth n : ℕ) → IsBytes bytes
        → module_from bytes ≡ Ok p.module_ → IsProgram p → Valid p.module_
        → depth ≤ greatest DumpFrames
        → TrapsAccepted p.module_ (run p collecting invocations replies depth n) }
{}

/// What a module hands over that simulates another one is accepted with that other one, at each of
/// its traps.
pub fn collected_dumps_are_accepted()
    ensures simulating { (factor : ℕ) (p other : Program) → Simulates factor p other → IsProgram p
        → IsModule p.module_ → Valid p.module_ → WithinLimits p.module_ → InRanges p.module_
        → (invocations : List Invocation) (replies : List HostReply) (depth n : ℕ) → 1 ≤ depth
        → depth ≤ 10000 → NoneDeep (run p false invocations replies depth n)
        → (steps : ℕ) × (n ≤ steps) × AllHandOver p.module_
        (run p false invocations replies depth n)
        (run other true invocations replies (depth + 2) steps) }
    ensures written { (bytes written : List ℕ) (m : Parts) → IsBytes bytes
        → module_from bytes ≡ Ok m → Valid m → (these : Admits m written)
        → (invocations : List Invocation) (replies : List HostReply) (depth n : ℕ) → 1 ≤ depth
        → depth ≤ 10000 → NoneDeep (run (program_of m these.whole) false invocations replies depth
        n) → (steps : ℕ) × (n ≤ steps)
        × AllHandOver m (run (program_of m these.whole) false invocations replies depth n)
        (run (program_of these.decoded these.decoded_whole) true invocations replies (depth + 2)
        steps) }
{}

/// In a decoded module the offsets of instructions have 32 bits, and the first values of globals
/// are of their types.
pub fn decoded_modules_are_in_ranges()
    ensures spelled { (bytes : List ℕ) (m : Parts) → IsModuleOf bytes m → InRanges m }
    ensures decoded { (bytes : List ℕ) (m : Parts) → IsBytes bytes → module_from bytes ≡ Ok m
        → InRanges m }
{}

/// A dump that can be one of a module is not refused: each answer of the tests is the match.
pub fn matching_dumps_are_answered()
    ensures { (m : Parts) (dump : CoreDump) (answer : Result Match FirstTest) → Matches m dump
        → Judged answer m dump → answer ≡ Ok (record {
          module_ = m;
          dump = dump;
        }) }
{}

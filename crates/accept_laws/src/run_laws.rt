//! Laws of the definitions.

ghost use Rattle.std.specs.Prelude.{◌≡◌, ◌≤◌, true, false, ℕ, List, length, map, Some, Ok};
ghost use Rattle.pm_outside.specs.Contents.{Contents};
ghost use Rattle.wasm_syntax.specs.declared.host.Served.{Served as ServedCall};
ghost use Rattle.wasm_syntax.specs.declared.module.ModuleParts.{ModuleParts as Parts};
ghost use Rattle.wasm_syntax.specs.Run.{run};
ghost use Rattle.wasm_syntax.specs.Valid.{Valid};
ghost use Rattle.wasm_bytes.specs.Laws.{IsBytes};
ghost use Rattle.wasm_decode.specs.Decode.{module_from};
ghost use Rattle.host_devices.specs.Given.{replies_of};
ghost use Rattle.host_set.specs.Sets.{DeviceState};
ghost use Rattle.commands.specs.declared.outcome.Outcome.{Outcome as Answer};
ghost use Rattle.run_words.specs.declared.words.RunWords.{RunWords as Asked};
ghost use Rattle.pm_outside.specs.Held.{Writes};
ghost use Rattle.rewrite_modules.specs.Instrumentable.{program_of};
ghost use Rattle.rewrite_modules.specs.Simulates.{NoneDeep};
ghost use Rattle.rewrite_promise.specs.Admitted.{Admits};
ghost use Rattle.run_session.specs.Invocations.{invocation_of};
ghost use Rattle.run_command.specs.RunAnswer.{RunAnswer};
ghost use Rattle.accept_laws.specs.calls.RunAccepted.{AcceptedWith, InBounds, HoldBytes, DumpsAccepted};

/// Each dump that `run` writes without `--collect`, of at most so many bytes as dumps may have, is
/// decoded as a dump that can be one of the module that `run` read.
pub fn run_dumps_are_accepted()
    ensures { (before after : List DeviceState) (w : Asked) (first later : Contents)
        (given : List ServedCall) (writes : Writes) (o : Answer) → InBounds w → w.collect ≡ false
        → HoldBytes first → RunAnswer before after w first later given writes o
        → DumpsAccepted w first writes }
{}

/// Each dump that `run --collect` of a rewritten module writes, of at most so many bytes as dumps
/// may have, is decoded as a dump that can be one of the original, where the original does not
/// exhaust its call depth on the replies that were given, within the same steps.
pub fn collected_run_dumps_are_accepted()
    ensures { (before after : List DeviceState) (w : Asked) (first later : Contents)
        (given : List ServedCall) (writes : Writes) (o : Answer) (bytes : List ℕ) (m : Parts)
        (written : List ℕ) (these : Admits m written) → InBounds w → 1 ≤ w.depth
        → length w.name ≤ 4096 → w.collect ≡ true → IsBytes bytes → module_from bytes ≡ Ok m
        → Valid m → first w.source ≡ Some written
        → NoneDeep (run (program_of m these.whole) false (map invocation_of w.invocations)
        (replies_of given) w.depth w.fuel)
        → RunAnswer before after w first later given writes o → AcceptedWith m w writes }
{}

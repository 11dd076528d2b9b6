//! How an invocation whose collector calls are looked at is shown.

ghost use Rattle.std.specs.Prelude.{◌≡◌, ◌≢◌, ◌≤◌, ℕ, Bool, List, Option};
ghost use Rattle.wasm_syntax.specs.declared.value.Value.{Value};
ghost use Rattle.wasm_syntax.specs.declared.parts.Import.{Import};
ghost use Rattle.wasm_syntax.specs.Module.{Program};
ghost use Rattle.wasm_syntax.specs.Run.{Outcome, finished, trapped};
ghost use Rattle.machine_basics.specs.calls.Traps.{trap_code};
ghost use Rattle.machine_hosted.specs.calls.Invocations.{HasOutcome};
ghost use Rattle.dump_format.specs.Form.{pages_of};
ghost use Rattle.dump_format.specs.calls.Contained.{IsContained};
ghost use Rattle.run_session.specs.Delivery.{Delivery};
ghost use Rattle.run_session.specs.Showing.{showing};
ghost use Rattle.run_session.specs.calls.Told.{IsHanded, IsShown, IfHanded, IfCollected};

use crate::handed::Handed;
use host_collector::Collected;
use machine_basics::TrapKind;
use machine_hosted::RunEnd;

/// How an invocation is shown.
#[derive(Drop)]
pub enum Shown<'a> {
    /// As without a collector.
    AsRun,
    /// It trapped, and handed over its dump, with the kind of its trap.
    Collected(Collected<'a>),
    /// It trapped, and handed over nothing.
    NoDump { kind: TrapKind },
    /// Its calls are torn at this index. It is 0 where it finished and yet handed over a dump.
    Torn { at: usize },
}

fn at_end<'a>(handed: Handed<'a>) -> Shown<'a>
    ensures shown { (v : Option Value) (delivery : Delivery) (memory : Option (List ℕ))
        (name : List ℕ)
        → IsHanded delivery memory name handed.entry
        → IsShown (showing (finished v) delivery) memory name result }
    ensures contained { IfCollected (λ c. IsContained c.dump) result }
    ensures pages { IfCollected (λ c. pages_of c.dump.memory ≤ 4096) result }
{
    match handed {
        Handed::Nothing => Shown::AsRun,
        Handed::Whole(collected) => {
            drop(collected);
            Shown::Torn { at: 0 }
        }
        Handed::Torn { at } => Shown::Torn { at },
    }
}

fn at_trap<'a>(kind: TrapKind, handed: Handed<'a>) -> Shown<'a>
    ensures shown { (delivery : Delivery) (memory : Option (List ℕ)) (name : List ℕ)
        → IsHanded delivery memory name handed.entry
        → IsShown (showing (trapped (trap_code kind)) delivery) memory name result }
    ensures contained { IfHanded (λ c. IsContained c.dump) handed.entry
        → IfCollected (λ c. IsContained c.dump) result }
    ensures pages { IfHanded (λ c. pages_of c.dump.memory ≤ 4096) handed.entry
        → IfCollected (λ c. pages_of c.dump.memory ≤ 4096) result }
{
    match handed {
        Handed::Nothing => Shown::NoDump { kind },
        Handed::Whole(collected) => Shown::Collected(collected),
        Handed::Torn { at } => Shown::Torn { at },
    }
}

/// How an invocation with this answer is shown, whose collector calls handed this over.
pub fn shown_by<'a>(answer: &RunEnd, handed: Handed<'a>) -> Shown<'a>
    ensures shown { (p : Program) (used_up : Import → Bool) (outcome : Outcome)
        → HasOutcome p used_up answer.now outcome → answer.now ≢ RunEnd.NoMemory
        → (delivery : Delivery) (memory : Option (List ℕ)) (name : List ℕ)
        → IsHanded delivery memory name handed.entry
        → IsShown (showing outcome delivery) memory name result }
    ensures contained { IfHanded (λ c. IsContained c.dump) handed.entry
        → IfCollected (λ c. IsContained c.dump) result }
    ensures pages { IfHanded (λ c. pages_of c.dump.memory ≤ 4096) handed.entry
        → IfCollected (λ c. pages_of c.dump.memory ≤ 4096) result }
{
    match answer {
        RunEnd::Finished { .. } => at_end(handed),
        RunEnd::Trapped { kind } => at_trap(*kind, handed),
        _ => {
            drop(handed);
            Shown::AsRun
        }
    }
}

//! One invocation of a list.

ghost use Rattle.std.specs.Prelude.{◌≡◌, ◌≢◌, ◌<◌, ◌≤◌, ◌+◌, ◌-◌, ◌^◌, List, None, IfOk, true};
ghost use Rattle.causes.specs.Counts.{Rose};
ghost use Rattle.wasm_syntax.specs.declared.host.CollectorCall.{CollectorCall as Call};
ghost use Rattle.dump_format.specs.Form.{pages_of};
ghost use Rattle.dump_format.specs.calls.Contained.{IsContained};
ghost use Rattle.commands.specs.Texts.{file_fault};
ghost use Rattle.commands.specs.calls.Given.{IfRefused, IfValue};
ghost use Rattle.run_session.specs.Delivery.{Delivery, IsDelivery};
ghost use Rattle.run_session.specs.Telling.{Telling, HasDump, tells};
ghost use Rattle.run_session.specs.RunText.{dump_name};
ghost use Rattle.run_session.specs.calls.Creating.{MayCreate};
ghost use Rattle.run_session.specs.inner.Dumping.{IsTold, IfDump, AddsTold, LeavesDump, torn_at};
ghost use Rattle.run_session.specs.inner.Turns.{turn_of, turn_by, UnlessRefused, IfGoesOn, IfEnds};
ghost use Rattle.run_session.specs.inner.Turns.{IfTurnRefused, Added};
ghost use Rattle.run_session.specs.inner.Turns.{LeavesPart, Dumps};
ghost use Rattle.pm_outside.specs.calls.Kept.{FilesGoOn};

use crate::dumps::dump_at_trap;
use crate::lines::{push_bare, push_finished, push_trapped};
use crate::told::{Told, tell};
use causes::NoMemory;
use commands::{Given, Outcome};
use dump_format::Dump;
use machine_hosted::RunEnd;
use pm_outside::Files;
use pm_text::Text;
use run_words::RunWords;
use std::alloc::Global;
use wasm_machine::Instance;
use wasm_syntax::CollectorCall;

/// The lines so far, and the number of the next trap, counted from 0.
#[derive(Drop)]
pub(crate) struct Lines {
    pub text: Text,
    pub traps: u64,
}

/// How a list of invocations goes on behind one of them.
#[derive(Drop)]
pub(crate) enum Turn {
    GoesOn,
    /// The list ends with this answer.
    Ends(RunEnd),
    /// The list ends because collector calls are torn at this index.
    Torn(usize),
    /// The file of a dump failed.
    Refused(Outcome),
}

/// How the list goes on behind an invocation with this answer, by whether the instance is ready, and
/// what adding its lines gave: the index at which its collector calls are torn, where they are.
fn turn_after(ready: bool, added: Given<Option<usize>>, answer: RunEnd) -> Turn
    ensures turn { result ≡ turn_by added ready answer }
    ensures ready { IfGoesOn (ready ≡ true) result }
    ensures ends { IfEnds (λ a. a ≡ answer) result }
{
    match added {
        Given::Refused(outcome) => Turn::Refused(outcome),
        Given::Value(Some(at)) => Turn::Torn(at),
        Given::Value(None) => {
            if ready {
                Turn::GoesOn
            } else {
                Turn::Ends(answer)
            }
        }
    }
}

/// Writes the dump of a trap, and adds its lines. Its collector calls are not torn.
fn add_trap<F: Files>(
    alloc: Global,
    files: &mut F,
    words: &RunWords,
    kind: u32,
    dump: &Dump<'_>,
    calls: u64,
    lines: &mut Lines,
) -> Result<Given<Option<usize>>, NoMemory>
    requires traps { lines.old.traps < 2 ^ 64 - 1 }
    requires contained { IsContained dump.now }
    requires pages { pages_of dump.now.memory ≤ 4096 }
    ensures added { IfOk result (IfValue (λ _.
        AddsTold words.now.dump words.now.name (Told.Trap kind dump.now) calls lines.old lines.new
        (F.told files.old) (F.told files.new))) }
    ensures torn { IfOk result (IfValue (λ torn. torn ≡ None)) }
    ensures front { LeavesDump words.now.dump words.now.name (Told.Trap kind dump.now)
        lines.old.traps (F.told files.old) (F.told files.new) }
    ensures refused { IfOk result
        (IfRefused (λ o. (o ≡ file_fault (dump_name words.now.dump lines.old.traps))
        × Rose (F.faults files.old) (F.faults files.new))) }
    ensures one { lines.new.traps ≤ lines.old.traps + 1 }
    ensures names { MayCreate (dump_name words.now.dump lines.old.traps) (F.created files.old)
        (F.created files.new) }
    ensures files { FilesGoOn F.told F.faults files.old files.new }
{
    let number = lines.traps;
    let written = dump_at_trap(alloc, files, dump, &words.dump, number)?;
    match written {
        Given::Value(()) => {
            push_trapped(&mut lines.text, kind, dump, calls)?;
            lines.traps = number + 1;
            Ok(Given::Value(None))
        }
        Given::Refused(outcome) => Ok(Given::Refused(outcome)),
    }
}

/// Adds the lines of an invocation of which this is told, and gives the index at which its collector
/// calls are torn, where they are. The dump of a trap is written first.
fn add_told<F: Files>(
    alloc: Global,
    files: &mut F,
    words: &RunWords,
    told: &Told<'_>,
    calls: u64,
    lines: &mut Lines,
) -> Result<Given<Option<usize>>, NoMemory>
    requires traps { lines.old.traps < 2 ^ 64 - 1 }
    requires contained { IfDump (λ d. IsContained d) told.now }
    requires pages { IfDump (λ d. pages_of d.memory ≤ 4096) told.now }
    ensures added { IfOk result (IfValue (λ _.
        AddsTold words.now.dump words.now.name told.now calls lines.old lines.new
        (F.told files.old) (F.told files.new))) }
    ensures torn { IfOk result (IfValue (λ torn. torn ≡ torn_at told.now)) }
    ensures front { LeavesDump words.now.dump words.now.name told.now lines.old.traps
        (F.told files.old) (F.told files.new) }
    ensures dumped { IfOk result (IfRefused
        (λ _. (t : Telling) → IsTold t words.now.name told.now → HasDump t)) }
    ensures refused { IfOk result
        (IfRefused (λ o. (o ≡ file_fault (dump_name words.now.dump lines.old.traps))
        × Rose (F.faults files.old) (F.faults files.new))) }
    ensures one { lines.new.traps ≤ lines.old.traps + 1 }
    ensures names { MayCreate (dump_name words.now.dump lines.old.traps) (F.created files.old)
        (F.created files.new) }
    ensures files { FilesGoOn F.told F.faults files.old files.new }
{
    match told {
        Told::Nothing => Ok(Given::Value(None)),
        Told::Finish(value) => {
            push_finished(&mut lines.text, *value, calls)?;
            Ok(Given::Value(None))
        }
        Told::Trap { kind, dump } => add_trap(alloc, files, words, *kind, dump, calls, lines),
        Told::BareTrap { kind } => {
            push_bare(&mut lines.text, *kind, calls)?;
            lines.traps += 1;
            Ok(Given::Value(None))
        }
        Told::Torn { at } => Ok(Given::Value(Some(*at))),
    }
}

/// What an invocation was told and given from outside: the collector calls, and how many replies.
#[derive(Drop)]
pub(crate) struct Outside<'c> {
    pub collected: &'c [CollectorCall],
    pub calls: u64,
}

/// Adds the lines of an invocation with this answer, which left the instance so, and gives the index
/// at which its collector calls are torn, where they are.
fn add_invocation<F: Files>(
    alloc: Global,
    files: &mut F,
    words: &RunWords,
    instance: &Instance,
    answer: &RunEnd,
    outside: &Outside<'_>,
    lines: &mut Lines,
) -> Result<Given<Option<usize>>, NoMemory>
    requires { lines.old.traps < 2 ^ 64 - 1 }
    ensures added { (deliver : List Call → Delivery) → IsDelivery deliver
        → IfOk result (IfValue (λ torn.
        Added (tells words.now.collect deliver) words.now.collect words.now.dump words.now.name
        instance.now answer.now outside.now.calls outside.now.collected.now lines.old lines.new
        (F.told files.old) (F.told files.new) (turn_of torn instance.now.ready answer.now))) }
    ensures part { (deliver : List Call → Delivery) → IsDelivery deliver
        → LeavesPart (tells words.now.collect deliver) words.now.collect words.now.dump
        words.now.name instance.now answer.now outside.now.collected.now lines.old.traps
        (F.told files.old) (F.told files.new) }
    ensures dumped { (deliver : List Call → Delivery) → IsDelivery deliver
        → IfOk result (IfRefused
        (λ _. Dumps (tells words.now.collect deliver) words.now.collect answer.now instance.now
        outside.now.collected.now)) }
    ensures refused { IfOk result
        (IfRefused (λ o. (o ≡ file_fault (dump_name words.now.dump lines.old.traps))
        × Rose (F.faults files.old) (F.faults files.new))) }
    ensures memory { IfOk result (λ _. answer.now ≢ RunEnd.NoMemory) }
    ensures one { lines.new.traps ≤ lines.old.traps + 1 }
    ensures names { MayCreate (dump_name words.now.dump lines.old.traps) (F.created files.old)
        (F.created files.new) }
    ensures files { FilesGoOn F.told F.faults files.old files.new }
{
    let told = tell(alloc, words, instance, answer, outside.collected)?;
    let added = add_told(alloc, files, words, &told, outside.calls, lines);
    drop(told);
    added
}

/// Adds the lines of an invocation with this answer, which left the instance so, and says how the
/// list goes on.
pub(crate) fn end_turn<F: Files>(
    alloc: Global,
    files: &mut F,
    words: &RunWords,
    instance: &Instance,
    answer: RunEnd,
    outside: &Outside<'_>,
    lines: &mut Lines,
) -> Result<Turn, NoMemory>
    requires { lines.old.traps < 2 ^ 64 - 1 }
    ensures added { (deliver : List Call → Delivery) → IsDelivery deliver
        → IfOk result (λ turn. UnlessRefused turn
        (Added (tells words.now.collect deliver) words.now.collect words.now.dump words.now.name
        instance.now answer outside.now.calls outside.now.collected.now lines.old lines.new
        (F.told files.old) (F.told files.new) turn)) }
    ensures part { (deliver : List Call → Delivery) → IsDelivery deliver
        → LeavesPart (tells words.now.collect deliver) words.now.collect words.now.dump
        words.now.name instance.now answer outside.now.collected.now lines.old.traps
        (F.told files.old) (F.told files.new) }
    ensures dumped { (deliver : List Call → Delivery) → IsDelivery deliver
        → IfOk result (IfTurnRefused
        (λ _. Dumps (tells words.now.collect deliver) words.now.collect answer instance.now
        outside.now.collected.now)) }
    ensures refused { IfOk result
        (IfTurnRefused (λ o. (o ≡ file_fault (dump_name words.now.dump lines.old.traps))
        × Rose (F.faults files.old) (F.faults files.new))) }
    ensures memory { IfOk result (λ _. answer ≢ RunEnd.NoMemory) }
    ensures ready { IfOk result (IfGoesOn (instance.now.ready ≡ true)) }
    ensures ends { IfOk result (IfEnds (λ a. a ≡ answer)) }
    ensures one { lines.new.traps ≤ lines.old.traps + 1 }
    ensures names { MayCreate (dump_name words.now.dump lines.old.traps) (F.created files.old)
        (F.created files.new) }
    ensures files { FilesGoOn F.told F.faults files.old files.new }
{
    let added = add_invocation(alloc, files, words, instance, &answer, outside, lines)?;
    Ok(turn_after(instance.ready(), added, answer))
}

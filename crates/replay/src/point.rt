//! An instance on its way through a run.

ghost use Rattle.std.specs.Prelude.{◌≡◌, ◌≢◌, ◌+◌, ◌<◌, ◌≤◌, ◌^◌, ℕ, None, Ok, true, IfOk, IfSome};
ghost use Rattle.wasm_syntax.specs.Module.{Program, function_export};
ghost use Rattle.wasm_syntax.specs.Machine.{Config};
ghost use Rattle.wasm_syntax.specs.Run.{cause_of_entry};
ghost use Rattle.machine_hosted.specs.declared.answer.RunEnd.{RunEnd as Answer};
ghost use Rattle.wasm_machine.specs.calls.Instances.{IsNew, StandsAt, copied};
ghost use Rattle.replay.specs.Replays.{cause_in, is_in};
ghost use Rattle.replay.specs.Moves.{IsFault};
ghost use Rattle.replay.specs.inner.Starting.{early, of_segments, Started};
ghost use Rattle.replay.specs.inner.Reached.{Waits};
ghost use Rattle.replay.specs.inner.Tracks.{Begun, WaitsAt, ReachedAt};

use crate::fault::StartRefusal;
use crate::recorded::Recorded;
use causes::NoMemory;
use machine_hosted::RunEnd;
use std::alloc::Global;
use wasm_machine::{EntryFault, Instance, RunAnswer, StartFault, entry_fault};

/// An instance that came so far, and how many replies it was given.
#[derive(Drop)]
pub(crate) struct Point<'a> {
    pub(crate) next: u64,
    pub(crate) instance: Instance<'a>,
}

/// Why an entry may not be invoked, where each import is served.
fn early_fault(fault: Option<EntryFault>) -> Option<StartRefusal>
    ensures { result ≡ early fault }
{
    match fault {
        Some(EntryFault::NoExport) => Some(StartRefusal::NoExport),
        Some(EntryFault::BadArguments) => Some(StartRefusal::BadArguments),
        Some(EntryFault::Unserved { .. }) => None,
        None => None,
    }
}

fn segment_fault(fault: StartFault) -> StartRefusal
    ensures { result ≡ of_segments fault }
{
    match fault {
        StartFault::ElementOut { index } => StartRefusal::ElementOut { index },
        StartFault::DataOut { index } => StartRefusal::DataOut { index },
        StartFault::NoMemory => StartRefusal::NoMemory,
    }
}

/// The first cause for which the entry may not be invoked.
fn entry_cause(alloc: Global, recorded: &Recorded<'_>) -> Option<StartRefusal>
    ensures none { result ≡ None → cause_of_entry recorded.now.module_
        (function_export recorded.now.module_ recorded.now.entry) recorded.now.args ≡ None }
    ensures some { IfSome result (λ fault. IsFault fault recorded.now) }
{
    let hosts = recorded.hosts(alloc, 0);
    let fault = entry_fault(recorded.source(), recorded.entry(), recorded.args(), &hosts);
    drop(hosts);
    early_fault(fault)
}

/// A new instance, or why the run does not start.
fn started<'a>(alloc: Global, recorded: &Recorded<'a>) -> Result<Instance<'a>, StartRefusal>
    ensures { Started result recorded.now }
{
    if let Some(fault) = entry_cause(alloc, recorded) {
        return Err(fault);
    }
    match Instance::new(alloc, recorded.source()) {
        Ok(instance) => Ok(instance),
        Err(fault) => Err(segment_fault(fault)),
    }
}

/// An answer, if memory sufficed for it.
fn had_memory(answer: RunEnd) -> Result<RunEnd, NoMemory>
    ensures { IfOk result (λ end. (end ≡ answer) × (answer ≢ RunEnd.NoMemory)) }
{
    match answer {
        RunEnd::NoMemory => Err(NoMemory),
        _ => Ok(answer),
    }
}

/// Whether an invocation goes on behind the steps that it was given.
fn is_going(answer: &RunAnswer) -> bool
    ensures { result ≡ true → answer.now ≡ Ok RunEnd.FuelSpent }
{
    match answer {
        Ok(RunEnd::FuelSpent) => true,
        Ok(_) => false,
        Err(_) => false,
    }
}

/// Brings a new instance to the first state of a run, and answers how many replies it was given.
fn begin<'a>(
    alloc: Global,
    recorded: &Recorded<'a>,
    instance: &mut Instance<'a>,
) -> Result<u64, NoMemory>
    requires { IsNew recorded.now.module_ instance.old }
    ensures { cause_in recorded.now ≡ None
        → IfOk result (λ next. Waits recorded.now 0 next instance.new) }
{
    let mut hosts = recorded.hosts(alloc, 0);
    let answer = instance.invoke(
        recorded.entry(),
        recorded.args(),
        recorded.depth(),
        0,
        &mut hosts,
    );
    let going = is_going(&answer);
    let next = hosts.given();
    drop(answer);
    drop(hosts);
    // No step is made, and each import of a valid module is served, so that only memory can be
    // wanting.
    if going { Ok(next) } else { Err(NoMemory) }
}

impl<'a> Point<'a> {
    /// The first state of a run, or why it does not start.
    pub(crate) fn first(alloc: Global, recorded: &Recorded<'a>) -> Result<Point<'a>, StartRefusal>
        ensures { Begun result recorded.now }
    {
        let mut instance = started(alloc, recorded)?;
        match begin(alloc, recorded, &mut instance) {
            Ok(next) => Ok(Point { next, instance }),
            Err(NoMemory) => {
                drop(instance);
                Err(StartRefusal::NoMemory)
            }
        }
    }

    /// Makes so many steps more, or fewer where the run ends before, and answers how it ended, or
    /// that these steps are used up. Behind want of memory it is of no use.
    pub(crate) fn advance(
        &mut self,
        alloc: Global,
        recorded: &Recorded<'a>,
        steps: u64,
    ) -> Result<RunEnd, NoMemory>
        requires waits { (n : ℕ) × WaitsAt recorded.now n self.old × (n + steps < 2 ^ 64) }
        ensures came { IfOk result (λ answer. (n : ℕ) → WaitsAt recorded.now n self.old
            → ReachedAt recorded.now (n + steps) answer self.new) }
        ensures since { self.new.instance.since_copy ≤ self.old.instance.since_copy + steps }
    {
        let mut hosts = recorded.hosts(alloc, self.next);
        let answer = self.instance.resume(recorded.depth(), steps, &mut hosts);
        self.next += hosts.given();
        drop(hosts);
        had_memory(answer)
    }

    /// A copy, which goes on by itself.
    pub(crate) fn copy(&self) -> Result<Point<'a>, NoMemory>
        ensures same { IfOk result (λ copy. copy ≡ record {
          next = self.now.next;
          instance = copied self.now.instance;
        }) }
    {
        let instance = self.instance.copy_of()?;
        Ok(Point {
            next: self.next,
            instance,
        })
    }

    /// A copy that went on up to a step, or up to the end of the run where that comes before.
    pub(crate) fn copy_at(
        &self,
        alloc: Global,
        recorded: &Recorded<'a>,
        step: u64,
    ) -> Result<Point<'a>, NoMemory>
        requires waits { WaitsAt recorded.now self.now.instance.steps self.now }
        requires before { self.now.instance.steps ≤ step }
        ensures reached { IfOk result
            (λ q. (answer : Answer) × ReachedAt recorded.now step answer q) }
        ensures since { IfOk result
            (λ q. self.now.instance.steps + q.instance.since_copy ≤ step) }
    {
        let steps = step - self.instance.steps();
        let mut copy = self.copy()?;
        match copy.advance(alloc, recorded, steps) {
            Ok(answer) => {
                drop(answer);
                Ok(copy)
            }
            Err(NoMemory) => {
                drop(copy);
                Err(NoMemory)
            }
        }
    }

    /// Whether the innermost frame is of this function, at this code offset.
    pub(crate) fn is_in(&self, function: u32, offset: u32) -> bool
        ensures { (p : Program) (c : Config) → StandsAt self.now.instance p c
            → result ≡ is_in function offset c }
    {
        if self.instance.frame_count() == 0 {
            return false;
        }
        let frame = self.instance.frame(0);
        frame.function == function && frame.offset == offset
    }
}

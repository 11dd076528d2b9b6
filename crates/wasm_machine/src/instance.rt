//! An instance of a module.

ghost use Rattle.std.specs.Prelude.{[], ◌≡◌, ◌+◌, ◌<◌, ◌^◌, ℕ, true, Some, None, IfOk, OnOk, OnErr, length, option_map};
ghost use Rattle.std.specs.Prelude.{slice_get};
ghost use Rattle.std.specs.Option.{option_copied};
ghost use Rattle.wasm_syntax.specs.declared.value.Value.{Value as Val};
ghost use Rattle.wasm_syntax.specs.Module.{Program, IsProgram, function_export};
ghost use Rattle.wasm_syntax.specs.Machine.{Config};
ghost use Rattle.dump_write.specs.Image.{frame_images};
ghost use Rattle.machine_code.specs.calls.Prepares.{IsPrepared};
ghost use Rattle.machine_hosted.specs.calls.Settings.{HostKept, HostServes, Knows, Takes};
ghost use Rattle.machine_hosted.specs.calls.Answers.{HasCause};
ghost use Rattle.wasm_machine.specs.calls.Entries.{entry_fault};
ghost use Rattle.wasm_machine.specs.calls.Answers.{fault_in};
ghost use Rattle.machine_hosted.specs.calls.Courses.{Course};
ghost use Rattle.wasm_machine.specs.calls.Instances.{Begins, IsOf, IsSpent, StandsAt, Invoked, Resumed, Stopped};
ghost use Rattle.wasm_machine.specs.calls.Instances.{StoppedBy, copied, last_of};
ghost use Rattle.wasm_machine.specs.calls.Watching.{Seen};
ghost use Rattle.wasm_machine.specs.declared.invocation.LastInvocation.{LastInvocation as Kept};

use crate::entries::callee;
use crate::frames::{FrameRef, frame_at};
use crate::invocation::{LastInvocation, RunAnswer, copy_of_last, kept};
use crate::{StartFault, Started, start};
use causes::NoMemory;
use host_devices::HostSide;
use linear_memory::Memory;
use machine_code::{Prepared, prepare};
use machine_hosted::{Entry, RunEnd, Runner, resume_invocation, watch_invocation};
use machine_steps::{CallStack, Machine, Unwatched, Watch};
use pm_text::Stack;
use std::alloc::Global;
use std::marker::Model;
use std::rc::Rc;
use wasm_syntax::{Module, Value, Values};
use wasm_validate::Validated;

/// An instance of a module: its globals, its memory, its table, and the frames of its last
/// invocation, with what was invoked and how that ended. The start function is run as the first
/// part of the first invocation.
///
/// It may be invoked while it is ready: from the start, and again behind each invocation that
/// finished or trapped, but not behind a trap for want of frames (kind 8) or inside the start
/// function.
#[derive(Drop)]
pub struct Instance<'a> {
    alloc: Global,
    source: &'a Module,
    prepared: Rc<Prepared<'a>>,
    machine: Machine,
    due: Option<u32>,
    ready: bool,
    entered: bool,
    steps: u64,
    since_copy: u64,
    last: Option<LastInvocation>,
}

impl<'a> Model for Instance<'a> {
    ghost use Rattle.wasm_machine.specs.calls.Instances.{State, state, SoundState};

    ghost Value = { State };

    ghost view = { λ i. state i.source.now i.prepared.value i.machine i.due i.ready i.entered
        i.steps i.since_copy i.last };

    ghost invariant = { λ i. SoundState
        (state i.source.now i.prepared.value i.machine i.due i.ready i.entered i.steps i.since_copy
        i.last) };
}

/// A machine without frames.
fn machine_of(alloc: Global, started: Started) -> Machine
    ensures shared { result.shared ≡ started.shared }
    ensures table { result.table ≡ started.table }
    ensures frames { result.stack.frames ≡ [] }
{
    let stack = CallStack {
        values: Stack::new(alloc),
        controls: Stack::new(alloc),
        frames: Stack::new(alloc),
        position: 0,
    };
    Machine {
        stack,
        shared: started.shared,
        table: started.table,
    }
}

/// The module prepared for running, which copies of its instance can share.
fn prepare_shared<'a>(alloc: Global, source: &'a Module) -> Result<Rc<Prepared<'a>>, NoMemory>
    ensures { (p : Program) → p.module_ ≡ source.now → IsProgram p
        → IfOk result (λ shared. IsPrepared p shared.value) }
{
    match prepare(alloc, source) {
        Ok(made) => match Rc::new(alloc, made) {
            Ok(shared) => Ok(shared),
            Err(_) => Err(NoMemory),
        },
        Err(NoMemory) => Err(NoMemory),
    }
}

impl<'a> Instance<'a> {
    /// Starts an instance (Core 4.5.4): all segments are judged first, the element segments before
    /// the data segments, and then they are written. No function is run yet.
    pub fn new(alloc: Global, source: &'a Validated) -> Result<Instance<'a>, StartFault>
        ensures { Begins result source.now }
    {
        let whole = source.module();
        let parts = whole.parts();
        let started = start(alloc, parts)?;
        match prepare_shared(alloc, whole) {
            Ok(prepared) => Ok(Instance {
                alloc,
                source: whole,
                prepared,
                machine: machine_of(alloc, started),
                due: parts.start,
                ready: true,
                entered: false,
                steps: 0,
                since_copy: 0,
                last: None,
            }),
            Err(NoMemory) => Err(StartFault::NoMemory),
        }
    }

    /// Runs the start function, where it was not run yet, and then the function that is exported
    /// under this name on these arguments, for at most so many steps and with at most so many
    /// frames. A host side serves the imports. Nothing is run and nothing changed where there is no
    /// such function, where it does not take the arguments, or where an import is not served. The
    /// arguments are copied before the first step, and kept with the answer; behind want of memory
    /// nothing is kept.
    pub fn invoke<H: HostSide>(
        &mut self,
        entry: &str,
        args: &[Value],
        depth: u32,
        fuel: u64,
        hosts: &mut H,
    ) -> RunAnswer
        requires ready { self.old.ready ≡ true }
        requires knows { Knows (H.origin hosts.old) self.old.module_ }
        requires steps { self.old.steps + fuel < 2 ^ 64 }
        ensures refused { fault_in result
            ≡ entry_fault (H.serving hosts.old) self.old.module_ entry.now args.now }
        ensures unchanged { OnErr result ((self.new ≡ self.old) × (hosts.new ≡ hosts.old)) }
        ensures came { IfOk result (λ end. (f : ℕ)
            × (function_export self.old.module_ entry.now ≡ Some f)
            × ((p : Program) → IsOf self.old p
            → Invoked p (H.collecting hosts.old) depth (H.used_up hosts.new) f args.now fuel
            self.old self.new end (H.calls hosts.old) (H.calls hosts.new))
            × (self.new.last ≡ last_of f args.now depth (H.collecting hosts.old) end)) }
        ensures cause { IfOk result (λ end. HasCause end (H.fault_count hosts.old)
            (H.fault_count hosts.new)) }
        ensures spent { IfOk result (λ end. end ≡ RunEnd.FuelSpent
            → IsSpent self.new depth (H.collecting hosts.new)) }
        ensures serves { OnOk result
            (HostServes (H.origin hosts.new) (H.serving hosts.new) self.old.module_) }
        ensures due { OnOk result (self.new.due ≡ None) }
        ensures module_ { self.new.module_ ≡ self.old.module_ }
        ensures prepared { self.new.prepared ≡ self.old.prepared }
        ensures host { HostKept H.origin H.collecting H.serving H.fault_count hosts.old hosts.new }
    {
        self.invoke_watched(entry, args, depth, fuel, hosts, &mut Unwatched {})
    }

    /// The same, and a watch sees each step: that of the start function and of the entry, the one
    /// that traps, and calls of imports. Where memory was wanting it saw some number of steps. It
    /// sees nothing where nothing is run.
    pub fn invoke_watched<H: HostSide, W: Watch>(
        &mut self,
        entry: &str,
        args: &[Value],
        depth: u32,
        fuel: u64,
        hosts: &mut H,
        watch: &mut W,
    ) -> RunAnswer
        requires ready { self.old.ready ≡ true }
        requires knows { Knows (H.origin hosts.old) self.old.module_ }
        requires steps { self.old.steps + fuel < 2 ^ 64 }
        ensures refused { fault_in result
            ≡ entry_fault (H.serving hosts.old) self.old.module_ entry.now args.now }
        ensures unchanged { OnErr result ((self.new ≡ self.old) × (hosts.new ≡ hosts.old)) }
        ensures came { IfOk result (λ end. (f : ℕ)
            × (function_export self.old.module_ entry.now ≡ Some f)
            × ((p : Program) → IsOf self.old p
            → Invoked p (H.collecting hosts.old) depth (H.used_up hosts.new) f args.now fuel
            self.old self.new end (H.calls hosts.old) (H.calls hosts.new))
            × (self.new.last ≡ last_of f args.now depth (H.collecting hosts.old) end)) }
        ensures cause { IfOk result (λ end. HasCause end (H.fault_count hosts.old)
            (H.fault_count hosts.new)) }
        ensures spent { IfOk result (λ end. end ≡ RunEnd.FuelSpent
            → IsSpent self.new depth (H.collecting hosts.new)) }
        ensures serves { OnOk result
            (HostServes (H.origin hosts.new) (H.serving hosts.new) self.old.module_) }
        ensures due { OnOk result (self.new.due ≡ None) }
        ensures module_ { self.new.module_ ≡ self.old.module_ }
        ensures prepared { self.new.prepared ≡ self.old.prepared }
        ensures host { HostKept H.origin H.collecting H.serving H.fault_count hosts.old hosts.new }
        ensures unseen { OnErr result (watch.new ≡ watch.old) }
        ensures watched { IfOk result
            (λ end. (f : ℕ) × (function_export self.old.module_ entry.now ≡ Some f)
            × ((p : Program) → IsOf self.old p
            → Seen W.Saw p (H.collecting hosts.old) depth f args.now fuel self.old self.new end
            watch.old watch.new (H.calls hosts.old) (H.calls hosts.new))) }
    {
        match callee(self.source, entry, args, hosts) {
            Ok(function) => Ok(self.call(function, args, depth, fuel, hosts, watch)),
            Err(fault) => Err(fault),
        }
    }

    /// Runs the start function, where it was not run yet, and then the function of this index on
    /// its arguments. Both are there, and all imports are served. The watch sees each step.
    fn call<H: HostSide, W: Watch>(
        &mut self,
        function: u32,
        args: &[Value],
        depth: u32,
        fuel: u64,
        hosts: &mut H,
        watch: &mut W,
    ) -> RunEnd
        requires ready { self.old.ready ≡ true }
        requires takes { Takes self.old.module_ function args.now }
        requires host { HostServes (H.origin hosts.old) (H.serving hosts.old) self.old.module_ }
        requires steps { self.old.steps + fuel < 2 ^ 64 }
        ensures came { (p : Program) → IsOf self.old p
            → Invoked p (H.collecting hosts.old) depth (H.used_up hosts.new) function args.now fuel
            self.old self.new result (H.calls hosts.old) (H.calls hosts.new) }
        ensures last { self.new.last
            ≡ last_of function args.now depth (H.collecting hosts.old) result }
        ensures spent { result ≡ RunEnd.FuelSpent
            → IsSpent self.new depth (H.collecting hosts.new) }
        ensures serves { HostServes (H.origin hosts.new) (H.serving hosts.new) self.old.module_ }
        ensures cause { HasCause result (H.fault_count hosts.old) (H.fault_count hosts.new) }
        ensures due { self.new.due ≡ None }
        ensures module_ { self.new.module_ ≡ self.old.module_ }
        ensures prepared { self.new.prepared ≡ self.old.prepared }
        ensures host { HostKept H.origin H.collecting H.serving H.fault_count hosts.old hosts.new }
        ensures watched { (p : Program) → IsOf self.old p
            → Seen W.Saw p (H.collecting hosts.old) depth function args.now fuel self.old self.new
            result watch.old watch.new (H.calls hosts.old) (H.calls hosts.new) }
    {
        let alloc = self.alloc;
        let start = self.due;
        self.due = None;
        self.ready = false;
        self.entered = start.is_none();
        self.last = None;
        let copy = match Values::from_slice(alloc, args) {
            Ok(copy) => copy,
            Err(NoMemory) => return RunEnd::NoMemory,
        };
        let collecting = hosts.collects();
        let prepared: &Prepared = &self.prepared;
        let runner = Runner {
            alloc,
            source: self.source,
            prepared,
            depth: depth as usize,
        };
        let entry = Entry {
            index: function,
            args,
        };
        let machine = &mut self.machine;
        let run = watch_invocation(&runner, machine, start, &entry, fuel, hosts, watch);
        self.ready = run.ready;
        self.entered = run.entered;
        self.steps += run.steps;
        self.since_copy += run.steps;
        self.last = kept(function, copy, depth, collecting, &run.answer);
        run.answer
    }

    /// Goes on with its last invocation, whose steps were used up, for at most so many steps more.
    /// The number of frames that there may be is the same, and so is whether the host side
    /// collects; it is asked behind the replies that were given so far. It answers as the whole
    /// invocation does with all these steps. The steps count on, and whether it may be invoked is
    /// as behind `invoke`; behind want of memory nothing is kept.
    pub fn resume<H: HostSide>(&mut self, depth: u32, fuel: u64, hosts: &mut H) -> RunEnd
        requires spent { IsSpent self.old depth (H.collecting hosts.old) }
        requires host { HostServes (H.origin hosts.old) (H.serving hosts.old) self.old.module_ }
        requires steps { self.old.steps + fuel < 2 ^ 64 }
        ensures came { (p : Program) (l : Kept) (course : Course) → IsOf self.old p
            → self.old.last ≡ Some l → StoppedBy self.old l p course
            → Resumed p (H.used_up hosts.new) l course fuel self.old self.new result
            (H.calls hosts.old) (H.calls hosts.new) }
        ensures last { (l : Kept) → self.old.last ≡ Some l
            → self.new.last ≡ last_of l.entry l.args depth (H.collecting hosts.old) result }
        ensures spent { result ≡ RunEnd.FuelSpent
            → IsSpent self.new depth (H.collecting hosts.new) }
        ensures serves { HostServes (H.origin hosts.new) (H.serving hosts.new) self.old.module_ }
        ensures cause { HasCause result (H.fault_count hosts.old) (H.fault_count hosts.new) }
        ensures due { self.new.due ≡ self.old.due }
        ensures module_ { self.new.module_ ≡ self.old.module_ }
        ensures prepared { self.new.prepared ≡ self.old.prepared }
        ensures host { HostKept H.origin H.collecting H.serving H.fault_count hosts.old hosts.new }
    {
        let Some(last) = self.last.take() else {
            unreachable!()
        };
        let prepared: &Prepared = &self.prepared;
        let runner = Runner {
            alloc: self.alloc,
            source: self.source,
            prepared,
            depth: depth as usize,
        };
        let machine = &mut self.machine;
        let args = last.args.as_slice();
        let rest = resume_invocation(
            &runner,
            machine,
            self.entered,
            last.entry,
            args,
            fuel,
            hosts,
        );
        self.ready = rest.ready;
        self.entered = rest.entered;
        self.steps += rest.steps;
        self.since_copy += rest.steps;
        self.last = kept(last.entry, last.args, depth, last.collecting, &rest.answer);
        rest.answer
    }

    /// An instance of its own that is the same: at the same place of the same invocation, with
    /// globals, memory and table of its own. Both go on by themselves.
    pub fn copy_of(&self) -> Result<Instance<'a>, NoMemory>
        ensures { IfOk result (λ copy. copy ≡ copied self.now) }
    {
        let alloc = self.alloc;
        let Ok(last) = copy_of_last(alloc, &self.last) else {
            return Err(NoMemory);
        };
        let Ok(prepared) = self.prepared.clone() else {
            return Err(NoMemory);
        };
        match self.machine.copy_of(alloc) {
            Ok(machine) => Ok(Instance {
                alloc,
                source: self.source,
                prepared,
                machine,
                due: self.due,
                ready: self.ready,
                entered: self.entered,
                steps: self.steps,
                since_copy: 0,
                last,
            }),
            Err(NoMemory) => Err(NoMemory),
        }
    }

    /// Whether it may be invoked.
    pub fn ready(&self) -> bool
        ensures { result ≡ self.now.ready }
    {
        self.ready
    }

    /// Whether the function that was invoked last was begun. Where it was not, the start function
    /// was still under way. Before the first invocation none was.
    pub fn entered(&self) -> bool
        ensures { result ≡ self.now.entered }
    {
        self.entered
    }

    /// The number of steps that it has made, over all its invocations.
    pub fn steps(&self) -> u64
        ensures { result ≡ self.now.steps }
    {
        self.steps
    }

    /// The number of steps that it has made since it was made by `new` or `copy_of`.
    pub fn since_copy(&self) -> u64
        ensures { result ≡ self.now.since_copy }
    {
        self.since_copy
    }

    /// What was invoked last, and how that ended. None where nothing was invoked, or memory was
    /// wanting. The instance stands where that stopped.
    pub fn last(&self) -> Option<&LastInvocation>
        ensures last { option_copied result ≡ self.now.last }
        ensures stopped { (l : Kept) (p : Program) → self.now.last ≡ Some l → IsOf self.now p
            → Stopped self.now l p }
    {
        self.last.as_ref()
    }

    /// The number of frames of its last invocation.
    pub fn frame_count(&self) -> usize
        ensures count { result ≡ length self.now.machine.stack.frames }
        ensures stands { (p : Program) (c : Config) → StandsAt self.now p c
            → result ≡ length c.frames }
    {
        self.machine.stack.frames.len()
    }

    /// The frame under so many others.
    pub fn frame(&self, index: usize) -> FrameRef
        requires { index < length self.now.machine.stack.frames }
        ensures { (p : Program) (c : Config) → StandsAt self.now p c
            → slice_get (frame_images c.frames) index ≡ Some result }
    {
        let prepared: &Prepared = &self.prepared;
        frame_at(&self.machine, prepared, index)
    }

    /// Its globals, in the module's order.
    pub fn globals(&self) -> &[Value]
        ensures globals { result.now ≡ self.now.machine.shared.globals }
        ensures stands { (p : Program) (c : Config) → StandsAt self.now p c
            → result.now ≡ c.world.globals }
    {
        self.machine.shared.globals.as_slice()
    }

    /// The global of an index, which the module has.
    pub fn global(&self, index: u32) -> Value
        requires { index < length self.now.module_.globals }
        ensures { (p : Program) (c : Config) (value : Val) → StandsAt self.now p c
            → slice_get c.world.globals index ≡ Some value → result ≡ value }
    {
        match self.globals().get(index as usize) {
            Some(value) => *value,
            None => Value::I32(0),
        }
    }

    /// Its memory, where the module has one.
    pub fn memory(&self) -> Option<&Memory>
        ensures memory { option_copied result ≡ self.now.machine.shared.memory }
        ensures stands { (p : Program) (c : Config) → StandsAt self.now p c
            → option_map (λ m. m.memory) (option_copied result) ≡ c.world.memory }
    {
        self.machine.shared.memory.as_ref()
    }
}

//! What serves the imports of a module in a run: devices by name, and else a script.

ghost use Rattle.std.specs.Prelude.{◌≡◌, ◌<◌, ◌≤◌, ◌∷◌, ◌++◌, ℕ, List, None, Some, OnOk, OnErr, [], false, true, map};
ghost use Rattle.std.specs.Prelude.{length, slice_get, take};
ghost use Rattle.std.specs.Option.{option_map};
ghost use Rattle.wasm_syntax.specs.declared.parts.FuncType.{FuncType as TypeValue};
ghost use Rattle.wasm_syntax.specs.declared.parts.Import.{Import as ImportValue};
ghost use Rattle.host_devices.specs.calls.HostSides.{Answers, HasCause, IsExhausted, KeepsUse};
ghost use Rattle.host_set.specs.Sets.{AreDistinct, IsPlace, IsUnnamed, count_of, is_named, log_of, names};
ghost use Rattle.host_set.specs.calls.Hosting.{IsAnswered, IsFailed, ServesNext, calls_of, is_used_up, log_named, logs};
ghost use Rattle.host_set.specs.calls.Hosting.{logs_before, of_module, of_script, origin_of, replies_of, serves};
ghost use Rattle.host_set.specs.calls.Hosting.{with_module};

use crate::devices::Devices;
use crate::entry::Entry;
use causes::NoMemory;
use host_devices::{DeviceAnswer, HostAnswer, HostSide, copy_call, copy_reply};
use linear_memory::Memory;
use pm_text::{Items, Text};
use std::alloc::Global;
use std::marker::Model;
use wasm_syntax::{FuncType, HostCall, Import, Reply};

/// A host side that serves each import by the device that is named as its module, or else by a
/// script.
///
/// Contracts see the devices as they are now, the script and how many of its replies were given,
/// and what was served, each with the name of its import's module.
#[derive(Drop)]
pub struct Hosts<'a, S: Devices> {
    alloc: Global,
    imports: &'a [Import],
    devices: S,
    script: Option<Items<Reply>>,
    given: usize,
    entries: Items<Entry>,
}

impl<'a, S: Devices> Model for Hosts<'a, S> {
    ghost use Rattle.host_set.specs.calls.Hosting.{HostsState, Keeps, seen};

    ghost Value = { HostsState };

    ghost view = { λ h. seen h.imports.now (S.shown h.devices) h.script h.given h.entries };

    ghost invariant = { λ h. Keeps h.imports.now (S.shown h.devices) h.script h.given h.entries };
}

/// The replies of a script, none where there is no script.
fn replies(script: &Option<Items<Reply>>) -> &[Reply]
    ensures { result.now ≡ replies_of script.now }
{
    match script {
        Some(replies) => replies.as_slice(),
        None => &[],
    }
}

/// The answer that a device failed.
fn failed(alloc: Global, name: &str) -> HostAnswer
    ensures { IsFailed name.now result }
{
    match Text::from_str(alloc, name) {
        Ok(name) => HostAnswer::Failed(name),
        Err(NoMemory) => HostAnswer::NoMemory,
    }
}

/// Adds the entry of a call that the script's reply of that number serves.
fn add_scripted(
    alloc: Global,
    entries: &mut Items<Entry>,
    call: &HostCall,
    reply: usize,
) -> Result<(), NoMemory>
    ensures added { OnOk result (entries.new
        ≡ entries.old ++ Entry.OfScript call.now reply ∷ []) }
    ensures unchanged { OnErr result (entries.new ≡ entries.old) }
{
    match copy_call(alloc, call) {
        Ok(call) => entries.push(Entry::OfScript { call, reply }),
        Err(NoMemory) => Err(NoMemory),
    }
}

impl<'a, S: Devices> Hosts<'a, S> {
    /// A host side of these devices and this script for the imports of a module. It takes no
    /// memory.
    pub fn new(
        alloc: Global,
        devices: S,
        script: Option<Items<Reply>>,
        imports: &'a [Import],
    ) -> Self
        requires { AreDistinct (names (S.shown devices)) }
        ensures state { result ≡ record {
          imports = imports.now;
          devices = S.shown devices;
          script = script;
          given = 0;
          served = [];
        } }
        ensures before { logs_before result ≡ logs (S.shown devices) }
        ensures logs { (name : List ℕ)
            → log_named (logs_before result) name ≡ log_of (S.shown devices) name }
    {
        Hosts {
            alloc,
            imports,
            devices,
            script,
            given: 0,
            entries: Items::new(alloc),
        }
    }

    /// The devices. The log of each is its log from before, followed by what was served to the
    /// imports of its module; what was served to the imports of other modules has the first replies
    /// of the script.
    pub fn into_devices(self) -> S
        ensures devices { S.shown result ≡ self.entry.devices }
        ensures distinct { AreDistinct (names self.entry.devices) }
        ensures logged { (name : List ℕ) → is_named (names self.entry.devices) name ≡ true
            → log_of self.entry.devices name
            ≡ log_named (logs_before self.entry) name ++ of_module name self.entry.served }
        ensures modules { self.entry.served
            ≡ map (with_module self.entry.imports) (calls_of self.entry).served }
        ensures scripted { of_script (names self.entry.devices) self.entry.served
            ≡ take self.entry.given (replies_of self.entry.script) }
        ensures given { self.entry.given ≤ length (replies_of self.entry.script) }
    {
        self.devices
    }

    /// How many calls were served.
    pub fn given(&self) -> u64
        ensures { result ≡ length self.now.served }
    {
        self.entries.len() as u64
    }

    /// The reply to the served call of a number, counted from 0.
    pub fn reply(&self, index: u64) -> &Reply
        requires { index < length self.now.served }
        ensures { option_map (λ s. s.1.reply) (slice_get self.now.served index) ≡ Some result.now }
    {
        match &self.entries.as_slice()[index as usize] {
            Entry::OfDevice { place, at } => &self.devices.log(*place)[*at].reply,
            Entry::OfScript { reply, .. } => &replies(&self.script)[*reply],
        }
    }

    /// Asks a device. The memory for the entry is taken before.
    fn ask(
        &mut self,
        place: usize,
        import: &Import,
        call: &HostCall,
        memory: Option<&Memory>,
    ) -> HostAnswer
        requires there { slice_get self.old.imports call.now.import ≡ Some import.now }
        requires place { IsPlace self.old.devices import.now.«module» place }
        ensures { IsAnswered import.now call.now result self.old self.new }
    {
        let at = self.devices.log(place).len();
        let count = self.entries.len();
        if self.entries.push(Entry::OfDevice { place, at }).is_err() {
            return HostAnswer::NoMemory;
        }
        match self.devices.call(place, call, memory) {
            DeviceAnswer::Replied(reply) => HostAnswer::Replied(reply),
            DeviceAnswer::Failed => {
                self.entries.truncate(count);
                failed(self.alloc, import.module.as_str())
            }
            DeviceAnswer::NoMemory => {
                self.entries.truncate(count);
                HostAnswer::NoMemory
            }
        }
    }

    /// Gives the script's next reply.
    fn give_next(&mut self, import: &Import, call: &HostCall) -> HostAnswer
        requires there { slice_get self.old.imports call.now.import ≡ Some import.now }
        requires place { IsUnnamed self.old.devices import.now.«module» }
        ensures { IsAnswered import.now call.now result self.old self.new }
    {
        let Some(reply) = replies(&self.script).get(self.given) else {
            return HostAnswer::NoReply;
        };
        let Ok(answer) = copy_reply(self.alloc, reply) else {
            return HostAnswer::NoMemory;
        };
        match add_scripted(self.alloc, &mut self.entries, call, self.given) {
            Ok(()) => {
                self.given += 1;
                HostAnswer::Replied(answer)
            }
            Err(NoMemory) => {
                drop(answer);
                HostAnswer::NoMemory
            }
        }
    }
}

impl<'a, S: Devices> HostSide for Hosts<'a, S> {
    ghost origin = { λ h. origin_of h };

    ghost calls = { λ h. calls_of h };

    ghost collecting = { λ _. false };

    ghost serving = { λ h i _. serves h i };

    ghost used_up = { λ h i. is_used_up h i };

    ghost fault_count = { λ h name. count_of h.devices name };

    fn serves(&self, import: &Import, _ftype: &FuncType) -> bool {
        match self.devices.place(import.module.as_str()) {
            Some(_) => true,
            None => self.script.is_some(),
        }
    }

    fn collects(&self) -> bool {
        false
    }

    fn call(&mut self, import: &Import, call: &HostCall, memory: Option<&Memory>) -> HostAnswer
        requires { slice_get self.old.imports call.now.import ≡ Some import.now }
        ensures calls { Answers None call.now result (calls_of self.old) (calls_of self.new) }
        ensures exhausted { IsExhausted (is_used_up self.old import.now) result }
        ensures used { KeepsUse result (is_used_up self.old) (is_used_up self.new) }
        ensures cause { HasCause import.now result (count_of self.old.devices)
            (count_of self.new.devices) }
        ensures later { (name : List ℕ)
            → count_of self.old.devices name ≤ count_of self.new.devices name }
        ensures names { names self.new.devices ≡ names self.old.devices }
        ensures script { self.new.script ≡ self.old.script }
        ensures serving { (i : ImportValue) (t : TypeValue)
            → serves self.new i ≡ serves self.old i }
        ensures origin { origin_of self.new ≡ origin_of self.old }
        ensures served { ServesNext import.now call.now result self.old.served self.new.served }
    {
        match self.devices.place(import.module.as_str()) {
            Some(place) => self.ask(place, import, call, memory),
            None => self.give_next(import, call),
        }
    }
}

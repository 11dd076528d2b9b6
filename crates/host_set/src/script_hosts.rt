//! What serves all imports of a module in a run: replies that are there beforehand.

ghost use Rattle.std.specs.Prelude.{◌≡◌, ◌≤◌, ◌∷◌, ◌++◌, ℕ, List, [], None, OnOk, OnErr, drop, false, length};
ghost use Rattle.std.specs.Prelude.{slice_get, take};
ghost use Rattle.std.specs.Prelude.{true};
ghost use Rattle.std.specs.Option.{is_none};
ghost use Rattle.host_devices.specs.Given.{replies_of};
ghost use Rattle.host_devices.specs.calls.HostSides.{Answers, HasCause, IsExhausted, KeepsUse};
ghost use Rattle.host_set.specs.calls.Scripting.{GivesNext, calls_of, is_used_up, next_of, origin_of};

use causes::NoMemory;
use host_devices::{HostAnswer, HostSide, copy_call, copy_reply};
use linear_memory::Memory;
use pm_text::Items;
use std::alloc::Global;
use std::marker::Model;
use wasm_syntax::{FuncType, HostCall, Import, Reply};

/// A host side that serves every import of a module by the replies of a list, in order, from one of
/// them on. It borrows both.
///
/// Contracts see the imports, the replies, the number of the first one that it gives, and the calls
/// that it replied to, in order. It keeps these calls, since they are a part of what a host side
/// means.
#[derive(Drop)]
pub struct ScriptHosts<'m, 'r> {
    alloc: Global,
    imports: &'m [Import],
    replies: &'r [Reply],
    first: usize,
    next: usize,
    calls: Items<HostCall>,
}

impl<'m, 'r> Model for ScriptHosts<'m, 'r> {
    ghost use Rattle.std.specs.Prelude.{◌≡◌, ◌+◌, ◌≤◌, length};
    ghost use Rattle.host_set.specs.calls.Scripting.{ScriptState};

    ghost Value = { ScriptState };

    ghost view = { λ s. record {
      imports = s.imports.now;
      replies = s.replies.now;
      first = s.first;
      calls = s.calls;
    } };

    ghost invariant = { λ s. (s.next ≡ s.first + length s.calls)
        × (s.next ≤ length s.replies.now) };
}

/// Adds a call.
fn add_call(alloc: Global, calls: &mut Items<HostCall>, call: &HostCall) -> Result<(), NoMemory>
    ensures added { OnOk result (calls.new ≡ calls.old ++ call.now ∷ []) }
    ensures unchanged { OnErr result (calls.new ≡ calls.old) }
{
    match copy_call(alloc, call) {
        Ok(copy) => calls.push(copy),
        Err(NoMemory) => Err(NoMemory),
    }
}

impl<'m, 'r> ScriptHosts<'m, 'r> {
    /// A host side for the imports of a module. It gives the replies from the one of this number
    /// on, which counts from 0. It takes no memory.
    pub fn new(alloc: Global, imports: &'m [Import], replies: &'r [Reply], first: u64) -> Self
        requires { first ≤ length replies.now }
        ensures { result ≡ record {
          imports = imports.now;
          replies = replies.now;
          first = first;
          calls = [];
        } }
    {
        ScriptHosts {
            alloc,
            imports,
            replies,
            first: first as usize,
            next: first as usize,
            calls: Items::new(alloc),
        }
    }

    /// The number of the next reply: that of the first one that it gives, and how many it gave.
    /// What it gave are the replies from the first one up to this.
    pub fn next(&self) -> u64
        ensures next { result ≡ next_of self.now }
        ensures within { next_of self.now ≤ length self.now.replies }
        ensures given { replies_of (calls_of self.now).served
            ≡ take (length self.now.calls) (drop self.now.first self.now.replies) }
    {
        self.next as u64
    }

    /// How many replies it gave: those from the first one on. It is used up exactly where there is
    /// no other one.
    pub fn given(&self) -> u64
        ensures count { result ≡ length (calls_of self.now).served }
        ensures given { replies_of (calls_of self.now).served
            ≡ take result (drop self.now.first self.now.replies) }
        ensures left { is_used_up self.now
            ≡ is_none (slice_get (drop self.now.first self.now.replies) result) }
    {
        (self.next - self.first) as u64
    }
}

impl<'m, 'r> HostSide for ScriptHosts<'m, 'r> {
    ghost origin = { λ s. origin_of s };

    ghost calls = { λ s. calls_of s };

    ghost collecting = { λ _. false };

    ghost serving = { λ _ _ _. true };

    ghost used_up = { λ s _. is_used_up s };

    ghost fault_count = { λ _ _. 0 };

    fn serves(&self, _import: &Import, _ftype: &FuncType) -> bool {
        true
    }

    fn collects(&self) -> bool {
        false
    }

    fn call(&mut self, import: &Import, call: &HostCall, _memory: Option<&Memory>) -> HostAnswer
        ensures calls { Answers None call.now result (calls_of self.old) (calls_of self.new) }
        ensures exhausted { IsExhausted (is_used_up self.old) result }
        ensures used { KeepsUse result (λ _. is_used_up self.old) (λ _. is_used_up self.new) }
        ensures cause { HasCause import.now result (λ _. 0) (λ _. 0) }
        ensures later { (name : List ℕ) → 0 ≤ 0 }
        ensures origin { origin_of self.new ≡ origin_of self.old }
        ensures gives { GivesNext call.now result self.old self.new }
    {
        let Some(reply) = self.replies.get(self.next) else {
            return HostAnswer::NoReply;
        };
        let Ok(answer) = copy_reply(self.alloc, reply) else {
            return HostAnswer::NoMemory;
        };
        match add_call(self.alloc, &mut self.calls, call) {
            Ok(()) => {
                self.next += 1;
                HostAnswer::Replied(answer)
            }
            Err(NoMemory) => {
                drop(answer);
                HostAnswer::NoMemory
            }
        }
    }
}

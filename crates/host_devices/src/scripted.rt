//! A device that gives replies in order.

ghost use Rattle.std.specs.Prelude.{◌≡◌, ◌≤◌, ◌↔◌, ◌⊎◌, []};
ghost use Rattle.causes.specs.Counts.{Rose};
ghost use Rattle.wasm_syntax.specs.declared.host.Reply.{Reply as ReplyValue};
ghost use Rattle.host_devices.specs.calls.Devices.{log_after, count_after, GivesNext};
ghost use Rattle.host_devices.specs.calls.Faults.{IsToFail, HasCounted};

use crate::copies::{copy_reply, entry};
use crate::device::{Device, DeviceAnswer};
use crate::faults::Faults;
use linear_memory::Memory;
use pm_text::{Items, Text};
use std::alloc::Global;
use std::marker::Model;
use wasm_syntax::{HostCall, Reply, Served};

/// A device of any name that gives its replies in order. Each call past the last one fails.
#[derive(Drop)]
pub struct Scripted {
    alloc: Global,
    name: Text,
    replies: Items<Reply>,
    given: usize,
    log: Items<Served>,
    faults: Faults,
}

impl Model for Scripted {
    ghost use Rattle.std.specs.Prelude.{◌≤◌, drop, length};
    ghost use Rattle.host_devices.specs.calls.Devices.{ScriptState};

    ghost Value = { ScriptState };

    ghost view = { λ s. record {
      name = s.name;
      log = s.log;
      left = drop s.given s.replies;
      plan = s.faults;
    } };

    ghost invariant = { λ s. s.given ≤ length s.replies };
}

impl Scripted {
    /// A device with an empty log. The calls with these numbers, counted from 0, fail and use no
    /// reply.
    pub fn new(alloc: Global, name: Text, replies: Items<Reply>, fail: Vec<u64>) -> Self
        ensures { result ≡ record {
          name = name;
          log = [];
          left = replies;
          plan = record { failing = fail.items; next = 0; count = 0 };
        } }
    {
        Scripted {
            alloc,
            name,
            replies,
            given: 0,
            log: Items::new(alloc),
            faults: Faults::new(fail),
        }
    }
}

impl Device for Scripted {
    ghost title = { λ s. s.name };

    ghost served = { λ s. s.log };

    ghost fault_count = { λ s. s.plan.count };

    fn name(&self) -> &str {
        self.name.as_str()
    }

    fn log(&self) -> &[Served] {
        self.log.as_slice()
    }

    fn faults(&self) -> u64 {
        self.faults.count()
    }

    fn call(&mut self, call: &HostCall, _memory: Option<&Memory>) -> DeviceAnswer
        ensures name { self.new.name ≡ self.old.name }
        ensures log { self.new.log ≡ log_after result call.now self.old.log }
        ensures gives { GivesNext result self.old.left self.new.left }
        ensures counted { HasCounted self.old.plan self.new.plan }
        ensures fails { (result ≡ DeviceAnswer.Failed) ↔
            (IsToFail self.old.plan ⊎ (self.old.left ≡ [])) }
        ensures counts { self.new.plan.count ≡ count_after result self.old.plan.count }
        ensures later { self.old.plan.count ≤ self.new.plan.count }
        ensures failed { result ≡ DeviceAnswer.Failed
            → Rose self.old.plan.count self.new.plan.count }
    {
        if self.faults.next_fails() {
            return DeviceAnswer::Failed;
        }
        let Some(reply) = self.replies.as_slice().get(self.given) else {
            self.faults.fail();
            return DeviceAnswer::Failed;
        };
        let Ok(answer) = copy_reply(self.alloc, reply) else {
            return DeviceAnswer::NoMemory;
        };
        let Ok(entry) = entry(self.alloc, call, reply) else {
            return DeviceAnswer::NoMemory;
        };
        match self.log.push(entry) {
            Ok(()) => {
                self.given += 1;
                DeviceAnswer::Replied(answer)
            }
            Err(_) => DeviceAnswer::NoMemory,
        }
    }
}

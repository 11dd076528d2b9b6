//! A console, which takes calls and says nothing.

ghost use Rattle.std.specs.Prelude.{◌≡◌, ◌≤◌, ◌↔◌, [], codes};
ghost use Rattle.causes.specs.Counts.{Rose};
ghost use Rattle.host_devices.specs.calls.Devices.{log_after, count_after, empty_reply};
ghost use Rattle.wasm_syntax.specs.declared.host.Reply.{Reply as ReplyValue};
ghost use Rattle.host_devices.specs.calls.Faults.{IsToFail, HasCounted};

use crate::copies::copy_call;
use crate::device::{Device, DeviceAnswer};
use crate::faults::Faults;
use linear_memory::Memory;
use pm_text::Items;
use std::alloc::Global;
use std::marker::Model;
use wasm_syntax::{HostCall, Reply, Served};

/// The device `console`: it replies with no value and no writes.
#[derive(Drop)]
pub struct Console {
    alloc: Global,
    log: Items<Served>,
    faults: Faults,
}

impl Model for Console {
    ghost use Rattle.host_devices.specs.calls.Devices.{ConsoleState};

    ghost Value = { ConsoleState };

    ghost view = { λ c. record { log = c.log; plan = c.faults } };
}

/// A reply of no value and no writes.
pub fn empty_reply(alloc: Global) -> Reply
    ensures { result ≡ empty_reply }
{
    Reply {
        value: None,
        writes: Items::new(alloc),
    }
}

impl Console {
    /// A console with an empty log. The calls with these numbers, counted from 0, fail.
    pub fn new(alloc: Global, fail: Vec<u64>) -> Self
        ensures { result ≡ record {
          log = [];
          plan = record { failing = fail.items; next = 0; count = 0 };
        } }
    {
        Console {
            alloc,
            log: Items::new(alloc),
            faults: Faults::new(fail),
        }
    }
}

impl Device for Console {
    ghost title = { λ _. codes "console" };

    ghost served = { λ c. c.log };

    ghost fault_count = { λ c. c.plan.count };

    fn name(&self) -> &str {
        "console"
    }

    fn log(&self) -> &[Served] {
        self.log.as_slice()
    }

    fn faults(&self) -> u64 {
        self.faults.count()
    }

    fn call(&mut self, call: &HostCall, _memory: Option<&Memory>) -> DeviceAnswer
        ensures log { self.new.log ≡ log_after result call.now self.old.log }
        ensures counted { HasCounted self.old.plan self.new.plan }
        ensures fails { (result ≡ DeviceAnswer.Failed) ↔ IsToFail self.old.plan }
        ensures silent { (reply : ReplyValue) → result ≡ DeviceAnswer.Replied reply
            → reply ≡ empty_reply }
        ensures counts { self.new.plan.count ≡ count_after result self.old.plan.count }
        ensures later { self.old.plan.count ≤ self.new.plan.count }
        ensures failed { result ≡ DeviceAnswer.Failed
            → Rose self.old.plan.count self.new.plan.count }
    {
        if self.faults.next_fails() {
            return DeviceAnswer::Failed;
        }
        let Ok(copy) = copy_call(self.alloc, call) else {
            return DeviceAnswer::NoMemory;
        };
        let entry = Served {
            call: copy,
            reply: empty_reply(self.alloc),
        };
        match self.log.push(entry) {
            Ok(()) => DeviceAnswer::Replied(empty_reply(self.alloc)),
            Err(_) => DeviceAnswer::NoMemory,
        }
    }
}

//! Devices of the tests: one that looks at the memory, and one that complains.

ghost use Rattle.std.specs.Prelude.{◌≡◌, codes, []};

use host_devices::{Console, Device, DeviceAnswer, copy_call};
use linear_memory::Memory;
use pm_text::Items;
use std::alloc::Global;
use std::marker::Model;
use wasm_syntax::{HostCall, Reply, Served, Value};

/// The device `memory`. To a call with an address it replies the byte that stands there, and to one
/// without arguments how many pages are made.
#[derive(Drop)]
pub struct Looking {
    alloc: Global,
    log: Items<Served>,
}

impl Model for Looking {
    ghost use Rattle.std.specs.Prelude.{List};
    ghost use Rattle.wasm_syntax.specs.declared.host.Served.{Served};

    ghost Value = { List Served };

    ghost view = { λ l. l.log };
}

fn byte_at(memory: &Memory, at: u32) -> Option<Value> {
    match memory.load(u64::from(at), 1) {
        Some(byte) => Some(Value::I32((byte % 0x100) as u32)),
        None => None,
    }
}

fn made_pages(memory: &Memory) -> u32 {
    let mut made = 0u32;
    for index in 0..memory.size() {
        if memory.page(index).is_some() {
            made = made.saturating_add(1);
        }
    }
    made
}

fn seen(call: &HostCall, memory: &Memory) -> Option<Value> {
    match call.args.as_slice() {
        [Value::I32(at)] => byte_at(memory, *at),
        _ => Some(Value::I32(made_pages(memory))),
    }
}

/// A reply without writes.
fn reply_of(alloc: Global, value: Option<Value>) -> Reply
    ensures { result ≡ record { value = value; writes = [] } }
{
    Reply {
        value,
        writes: Items::new(alloc),
    }
}

impl Device for Looking {
    ghost title = { λ _. codes "memory" };

    ghost served = { λ l. l };

    ghost fault_count = { λ _. 0 };

    fn name(&self) -> &str {
        "memory"
    }

    fn log(&self) -> &[Served] {
        self.log.as_slice()
    }

    fn faults(&self) -> u64 {
        0
    }

    fn call(&mut self, call: &HostCall, memory: Option<&Memory>) -> DeviceAnswer {
        let value = match memory {
            Some(memory) => seen(call, memory),
            None => None,
        };
        let Ok(copy) = copy_call(self.alloc, call) else {
            return DeviceAnswer::NoMemory;
        };
        let entry = Served {
            call: copy,
            reply: reply_of(self.alloc, value),
        };
        match self.log.push(entry) {
            Ok(()) => DeviceAnswer::Replied(reply_of(self.alloc, value)),
            Err(_) => DeviceAnswer::NoMemory,
        }
    }
}

/// A console that counts a fault at each call, and replies all the same.
#[derive(Drop)]
pub struct Complaining {
    console: Console,
    faults: u64,
}

impl Device for Complaining {
    ghost title = { λ _. codes "console" };

    ghost served = { λ c. c.console.log };

    ghost fault_count = { λ c. c.faults };

    fn name(&self) -> &str {
        self.console.name()
    }

    fn log(&self) -> &[Served] {
        self.console.log()
    }

    fn faults(&self) -> u64 {
        self.faults
    }

    fn call(&mut self, call: &HostCall, memory: Option<&Memory>) -> DeviceAnswer {
        self.faults = self.faults.saturating_add(1);
        self.console.call(call, memory)
    }
}

/// A device that looks at the memory.
pub fn new_looking(alloc: Global) -> Looking {
    Looking {
        alloc,
        log: Items::new(alloc),
    }
}

/// A console that complains.
pub fn new_complaining(alloc: Global) -> Complaining {
    Complaining {
        console: Console::new(alloc, Vec::new(alloc)),
        faults: 0,
    }
}

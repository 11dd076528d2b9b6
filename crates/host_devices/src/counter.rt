//! A counter of the calls that it replied to.

ghost use Rattle.std.specs.Prelude.{◌≡◌, [], length, codes, List};
ghost use Rattle.host_devices.specs.calls.Devices.{log_after, counted_value, counted_reply};
ghost use Rattle.wasm_syntax.specs.declared.host.Reply.{Reply as ReplyValue};

use crate::copies::copy_call;
use crate::device::{Device, DeviceAnswer};
use linear_memory::Memory;
use pm_text::Items;
use std::alloc::Global;
use std::marker::Model;
use wasm_syntax::{HostCall, Reply, Served, ValType, Value};

/// The device `counter`: it replies the number of its earlier replies, or no value where none is
/// asked. Contracts see its log.
#[derive(Drop)]
pub struct Counter {
    alloc: Global,
    log: Items<Served>,
}

impl Model for Counter {
    ghost use Rattle.std.specs.Prelude.{List};
    ghost use Rattle.wasm_syntax.specs.declared.host.Served.{Served};

    ghost Value = { List Served };

    ghost view = { λ c. c.log };
}

/// A number in the type of a result, modulo 2^32 or 2^64.
fn counted_value(result_type: Option<ValType>, count: u64) -> Option<Value>
    ensures { result ≡ counted_value result_type count }
{
    match result_type {
        None => None,
        Some(ValType::I32) => Some(Value::I32((count % 0x1_0000_0000) as u32)),
        Some(ValType::I64) => Some(Value::I64(count)),
    }
}

fn counted_reply(alloc: Global, result_type: Option<ValType>, count: u64) -> Reply
    ensures { result ≡ counted_reply result_type count }
{
    Reply {
        value: counted_value(result_type, count),
        writes: Items::new(alloc),
    }
}

impl Counter {
    /// A counter at 0.
    pub fn new(alloc: Global) -> Self
        ensures { result ≡ [] }
    {
        Counter {
            alloc,
            log: Items::new(alloc),
        }
    }
}

impl Device for Counter {
    ghost title = { λ _. codes "counter" };

    ghost served = { λ c. c };

    ghost fault_count = { λ _. 0 };

    fn name(&self) -> &str {
        "counter"
    }

    fn log(&self) -> &[Served] {
        self.log.as_slice()
    }

    fn faults(&self) -> u64 {
        0
    }

    fn call(&mut self, call: &HostCall, _memory: Option<&Memory>) -> DeviceAnswer
        ensures log { self.new ≡ log_after result call.now self.old }
        ensures never { result ≡ DeviceAnswer.Failed → ⊥ }
        ensures counts { (reply : ReplyValue) → result ≡ DeviceAnswer.Replied reply
            → reply ≡ counted_reply call.now.result (length self.old) }
    {
        let count = self.log.len() as u64;
        let Ok(copy) = copy_call(self.alloc, call) else {
            return DeviceAnswer::NoMemory;
        };
        let entry = Served {
            call: copy,
            reply: counted_reply(self.alloc, call.result, count),
        };
        match self.log.push(entry) {
            Ok(()) => DeviceAnswer::Replied(counted_reply(self.alloc, call.result, count)),
            Err(_) => DeviceAnswer::NoMemory,
        }
    }
}

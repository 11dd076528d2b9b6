//! Copies of calls and replies.

ghost use Rattle.std.specs.Prelude.{◌≡◌, IfOk};

use causes::NoMemory;
use pm_text::{Items, Text};
use std::alloc::Global;
use wasm_syntax::{HostCall, Reply, Served, Write, Writes};

pub fn copy_call(alloc: Global, call: &HostCall) -> Result<HostCall, NoMemory>
    ensures { IfOk result (λ c. c ≡ call.now) }
{
    Ok(HostCall {
        import: call.import,
        name: Text::from_str(alloc, call.name.as_str())?,
        args: Items::from_slice(alloc, call.args.as_slice())?,
        result: call.result,
    })
}

fn copy_writes(alloc: Global, writes: &[Write]) -> Result<Writes, NoMemory>
    ensures { IfOk result (λ w. w ≡ writes.now) }
{
    let mut copies = Items::new(alloc);
    for write in writes {
        copies.push(Write {
            at: write.at,
            bytes: Items::from_slice(alloc, write.bytes.as_slice())?,
        })?;
    }
    Ok(copies)
}

pub fn copy_reply(alloc: Global, reply: &Reply) -> Result<Reply, NoMemory>
    ensures { IfOk result (λ r. r ≡ reply.now) }
{
    Ok(Reply {
        value: reply.value,
        writes: copy_writes(alloc, reply.writes.as_slice())?,
    })
}

/// The entry of a log for a call and its reply.
pub fn entry(alloc: Global, call: &HostCall, reply: &Reply) -> Result<Served, NoMemory>
    ensures { IfOk result (λ s. s ≡ record { call = call.now; reply = reply.now }) }
{
    Ok(Served {
        call: copy_call(alloc, call)?,
        reply: copy_reply(alloc, reply)?,
    })
}

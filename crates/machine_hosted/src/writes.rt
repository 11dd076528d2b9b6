//! The writes of a reply, made in order.

ghost use Rattle.std.specs.Prelude.{◌≡◌, ◌+◌, length, nat_le, OnOk, Some, None};
ghost use Rattle.wasm_syntax.specs.Host.{World, after_writes};
ghost use Rattle.machine_basics.specs.calls.Performs.{Holds};
ghost use Rattle.machine_hosted.specs.inner.Writes.{all_inside, WroteTo, Wrote};

use crate::reply::Replied;
use linear_memory::{Memory, StoreFault};
use machine_basics::Shared;
use wasm_syntax::Write;

/// Whether a write lies inside a memory of so many bytes.
fn is_inside(size: u64, write: &Write) -> bool
    ensures { result ≡ nat_le (write.now.at + length write.now.bytes) size }
{
    let at = u64::from(write.at);
    at <= size && write.bytes.len() as u64 <= size - at
}

/// Whether each write lies inside the memory, whose size no write changes.
fn all_fit(memory: &Memory, writes: &[Write]) -> bool
    ensures { result ≡ all_inside (length memory.now.memory.bytes) writes.now }
{
    let size = 65536 * u64::from(memory.size());
    for write in writes {
        if !is_inside(size, write) {
            return false;
        }
    }
    true
}

/// Makes the writes, up to the first one that does not lie inside.
fn write_each(memory: &mut Memory, writes: &[Write]) -> Result<(), StoreFault>
    ensures done { OnOk result (after_writes (Some memory.old.memory) writes.now
        ≡ Some (Some memory.new.memory)) }
    ensures out { result ≡ Err StoreFault.Out
        → after_writes (Some memory.old.memory) writes.now ≡ None }
{
    for write in writes {
        let bytes = write.bytes.as_slice();
        memory.write(u64::from(write.at), bytes)?;
    }
    Ok(())
}

/// Makes the writes where all of them lie inside.
fn write_all(memory: &mut Memory, writes: &[Write]) -> Replied
    ensures { WroteTo result memory.old memory.new writes.now }
{
    if !all_fit(memory, writes) {
        return Replied::Misfit;
    }
    match write_each(memory, writes) {
        Ok(()) => Replied::Done,
        Err(StoreFault::Out) => Replied::Misfit,
        Err(StoreFault::NoMemory) => Replied::NoMemory,
    }
}

/// Makes the writes where all of them lie inside the memory that there is.
pub(crate) fn make_writes(shared: &mut Shared, writes: &[Write]) -> Replied
    ensures { (w : World) → Holds shared.old w → Wrote result w shared.old shared.new writes.now }
{
    match &mut shared.memory {
        Some(memory) => write_all(memory, writes),
        None => {
            if writes.is_empty() {
                Replied::Done
            } else {
                Replied::Misfit
            }
        }
    }
}

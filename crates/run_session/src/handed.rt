//! What the collector calls of one invocation hand over.

ghost use Rattle.std.specs.Prelude.{◌≡◌, ◌≤◌, IfOk, Option, option_copied};
ghost use Rattle.linear_memory.specs.calls.Paged.{Paged};
ghost use Rattle.dump_format.specs.Form.{pages_of};
ghost use Rattle.dump_format.specs.calls.Contained.{IsContained};
ghost use Rattle.dump_write.specs.Pictured.{bytes_in};
ghost use Rattle.run_session.specs.Delivery.{Delivery, Delivers};
ghost use Rattle.run_session.specs.calls.Told.{IsHanded, IfHanded};

use causes::NoMemory;
use host_collector::{CloseFault, Collected, close};
use linear_memory::Memory;
use std::alloc::Global;
use wasm_syntax::CollectorCall;

/// What the collector calls of one invocation hand over.
#[derive(Drop)]
pub enum Handed<'a> {
    /// There are none.
    Nothing,
    /// They are whole.
    Whole(Collected<'a>),
    /// There are some, and they are not whole. This is the first one up to and with which they
    /// begin no whole list.
    Torn { at: usize },
}

/// What the collector calls of one invocation hand over, with the memory that it left and a name
/// for the dump. The dump borrows the pages of the memory.
///
/// # Errors
///
/// `NoMemory` where memory runs out.
pub fn handed_over<'a>(
    alloc: Global,
    calls: &[CollectorCall],
    memory: Option<&'a Memory>,
    name: &str,
) -> Result<Handed<'a>, NoMemory>
    ensures handed { (held : Option Paged) → option_copied memory.entry ≡ held → IfOk result (λ h.
        (delivery : Delivery) × Delivers calls.now delivery
        × IsHanded delivery (bytes_in held) name.now h) }
    ensures contained { IfOk result (IfHanded (λ c. IsContained c.dump)) }
    ensures pages { IfOk result (IfHanded (λ c. pages_of c.dump.memory ≤ 4096)) }
{
    if calls.is_empty() {
        return Ok(Handed::Nothing);
    }
    match close(alloc, calls, memory, name) {
        Ok(collected) => Ok(Handed::Whole(collected)),
        Err(CloseFault::Torn { at }) => Ok(Handed::Torn { at }),
        Err(CloseFault::NoMemory) => Err(NoMemory),
    }
}

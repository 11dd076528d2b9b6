//! The dump of a whole list of calls.

ghost use Rattle.std.specs.Prelude.{◌≡◌, ◌↔◌, ◌≤◌, ℕ, Err, IfOk, Option, option_copied};
ghost use Rattle.linear_memory.specs.calls.Paged.{Paged};
ghost use Rattle.dump_format.specs.Form.{pages_of};
ghost use Rattle.dump_format.specs.calls.Contained.{IsContained};
ghost use Rattle.dump_write.specs.Canonical.{canonical_bytes};
ghost use Rattle.dump_write.specs.ImageBytes.{bytes_of};
ghost use Rattle.dump_write.specs.Collected.{Whole, collected_dump};
ghost use Rattle.dump_write.specs.Pictured.{Pictures, bytes_in};
ghost use Rattle.host_collector.specs.Torn.{IsFirstOffending};
ghost use Rattle.host_collector.specs.calls.Closed.{IsClosed};

use crate::collecting::Collecting;
use crate::gathered::{Gathered, gather};
use crate::progress::judge;
use causes::NoMemory;
use dump_format::Dump;
use dump_write::picture;
use linear_memory::Memory;
use std::alloc::Global;
use wasm_syntax::CollectorCall;

/// What whole calls hand over.
#[derive(Drop)]
pub struct Collected<'a> {
    /// The kind of the trap, from 1 to 7.
    pub kind: u32,
    pub dump: Dump<'a>,
}

/// Why calls have no dump.
#[derive(Clone, Copy)]
pub enum CloseFault {
    /// The calls are not whole. The call at this index is the first one up to and with which they
    /// begin no whole list; it is the number of the calls where there is none.
    Torn { at: usize },
    NoMemory,
}

/// The dump of what whole calls hand over.
fn collected_dump<'a>(
    alloc: Global,
    calls: &[CollectorCall],
    memory: Option<&'a Memory>,
    name: &str,
) -> Result<Dump<'a>, NoMemory>
    ensures pictures { (held : Option Paged) (w : Whole calls.now)
        → option_copied memory.entry ≡ held
        → IfOk result (λ d. Pictures (collected_dump w (bytes_in held) name.now) d) }
    ensures bytes { (held : Option Paged) (w : Whole calls.now) → option_copied memory.entry ≡ held
        → IfOk result (λ d. canonical_bytes d
        ≡ bytes_of (collected_dump w (bytes_in held) name.now)) }
    ensures contained { IfOk result (λ d. IsContained d) }
    ensures pages { IfOk result (λ d. pages_of d.memory ≤ 4096) }
{
    let Gathered { frames, values } = gather(alloc, calls)?;
    picture(alloc, name, frames, values, memory)
}

/// The dump of a list of calls, with this memory and of this name. It borrows the memory's pages.
///
/// # Errors
///
/// `Torn` exactly where the calls are not whole, with the first offending call; where they are,
/// `NoMemory` if memory runs out.
pub fn close<'a>(
    alloc: Global,
    calls: &[CollectorCall],
    memory: Option<&'a Memory>,
    name: &str,
) -> Result<Collected<'a>, CloseFault>
    ensures closed { (held : Option Paged) → option_copied memory.entry ≡ held
        → IfOk result (IsClosed calls.now (bytes_in held) name.now) }
    ensures torn { (at : ℕ) → (result ≡ Err (CloseFault.Torn at)) ↔ IsFirstOffending calls.now at }
    ensures wanting { result ≡ Err CloseFault.NoMemory → Whole calls.now }
    ensures contained { IfOk result (λ c. IsContained c.dump) }
    ensures pages { IfOk result (λ c. pages_of c.dump.memory ≤ 4096) }
{
    let kind = match judge(calls) {
        Ok(kind) => kind,
        Err(at) => return Err(CloseFault::Torn { at }),
    };
    match collected_dump(alloc, calls, memory, name) {
        Ok(dump) => Ok(Collected { kind, dump }),
        Err(NoMemory) => Err(CloseFault::NoMemory),
    }
}

impl<H> Collecting<H> {
    /// The dump of the calls that were collected, with this memory and of this name. The calls
    /// stay.
    ///
    /// # Errors
    ///
    /// Those of `close`.
    pub fn close<'a>(
        &self,
        memory: Option<&'a Memory>,
        name: &str,
    ) -> Result<Collected<'a>, CloseFault>
        ensures closed { (held : Option Paged) → option_copied memory.entry ≡ held
            → IfOk result (IsClosed self.now.calls (bytes_in held) name.now) }
        ensures torn { (at : ℕ) → (result ≡ Err (CloseFault.Torn at)) ↔ IsFirstOffending
            self.now.calls at }
        ensures wanting { result ≡ Err CloseFault.NoMemory → Whole self.now.calls }
        ensures contained { IfOk result (λ c. IsContained c.dump) }
        ensures pages { IfOk result (λ c. pages_of c.dump.memory ≤ 4096) }
    {
        close(self.alloc(), self.calls(), memory, name)
    }
}

//! The line of a self-test.

ghost use Rattle.std.specs.Prelude.{◌≡◌, ◌≤◌, ◌*◌, ◌++◌, ℕ, List, Option, IfOk, OnOk, codes, length, sum};
ghost use Rattle.std.specs.Str.{bytes_eq};
ghost use Rattle.dump_format.specs.Form.{pages_of};
ghost use Rattle.dump_format.specs.calls.Contained.{IsContained};
ghost use Rattle.run_session.specs.Delivery.{Delivery};
ghost use Rattle.run_session.specs.calls.Told.{IfHanded, IsHanded};
ghost use Rattle.selftest_command.specs.Summary.{line, sum_text, trap_text};
ghost use Rattle.selftest_command.specs.inner.Steps.{compared, dumped, summary};

use causes::NoMemory;
use commands::{Outcome, Status, push_number};
use dump_write::dump_bytes;
use pm_text::Text;
use run_session::Handed;
use std::alloc::Global;

/// The sum of bytes.
fn sum_of(bytes: &[u8]) -> u128
    ensures sum { result ≡ sum bytes.now }
    ensures fits { result ≤ 255 * length bytes.now }
{
    let mut total: u128 = 0;
    for byte in bytes {
        total += u128::from(*byte);
    }
    total
}

/// Adds the kind of a trap and how many frames its dump has.
#[tactic(auto, unfolding(crate::specs::Summary::trap_text))]
fn push_trap(out: &mut Text, count: u32, kind: u32, frames: usize) -> Result<(), NoMemory>
    ensures { OnOk result (out.new ≡ out.old ++ trap_text count kind frames) }
{
    push_number(out, "selftest ", u64::from(count))?;
    push_number(out, " kind ", u64::from(kind))?;
    push_number(out, " frames ", frames as u64)
}

/// Adds how many bytes a dump has, their sum, and how many steps were made.
#[tactic(auto, unfolding(crate::specs::Summary::sum_text))]
fn push_sum(out: &mut Text, bytes: &[u8], steps: u64) -> Result<(), NoMemory>
    ensures { OnOk result (out.new ≡ out.old ++ sum_text bytes.now steps) }
{
    push_number(out, " bytes ", bytes.len() as u64)?;
    out.push_str(" sum ")?;
    out.push_decimal(sum_of(bytes) as i128)?;
    push_number(out, " steps ", steps)?;
    out.push_str("\n")
}

/// The line of so many functions.
pub(crate) fn summary(
    alloc: Global,
    count: u32,
    kind: u32,
    frames: usize,
    bytes: &[u8],
    steps: u64,
) -> Result<Outcome, NoMemory>
    ensures { IfOk result (λ o. o ≡ line count kind frames bytes.now steps) }
{
    let mut text = Text::new(alloc);
    push_trap(&mut text, count, kind, frames)?;
    push_sum(&mut text, bytes, steps)?;
    Ok(Outcome {
        status: Status::Done,
        text,
    })
}

/// Whether two dumps have the same bytes.
fn same_bytes(own: &[u8], other: &[u8]) -> bool
    ensures { result ≡ bytes_eq own.now other.now }
{
    own == other
}

/// The line of a dump with these bytes, where the first module's dump has them too.
fn compared_summary(
    alloc: Global,
    count: u32,
    own: &[u8],
    kind: u32,
    frames: usize,
    bytes: &[u8],
    steps: u64,
) -> Result<Outcome, NoMemory>
    ensures { IfOk result (λ o. o ≡ summary count
        (compared own.now (record { kind = kind; frames = frames; bytes = bytes.now })) steps) }
{
    if same_bytes(own, bytes) {
        summary(alloc, count, kind, frames, bytes, steps)
    } else {
        summary(alloc, count, 0, 0, &[], steps)
    }
}

/// The line of what calls of the collector handed over, where that is the dump of the first module.
pub(crate) fn handed_summary(
    alloc: Global,
    count: u32,
    own: &[u8],
    handed: &Handed<'_>,
    steps: u64,
) -> Result<Outcome, NoMemory>
    requires contained { IfHanded (λ c. IsContained c.dump) handed.now }
    requires pages { IfHanded (λ c. pages_of c.dump.memory ≤ 4096) handed.now }
    ensures { (delivery : Delivery) (memory : Option (List ℕ))
        → IsHanded delivery memory (codes "module") handed.now
        → IfOk result (λ o. o ≡ summary count (dumped own.now delivery memory) steps) }
{
    match handed {
        Handed::Whole(collected) => {
            let bytes = dump_bytes(alloc, &collected.dump)?;
            let frames = collected.dump.frames.len();
            compared_summary(alloc, count, own, collected.kind, frames, &bytes, steps)
        }
        Handed::Nothing => summary(alloc, count, 0, 0, &[], steps),
        Handed::Torn { .. } => summary(alloc, count, 0, 0, &[], steps),
    }
}

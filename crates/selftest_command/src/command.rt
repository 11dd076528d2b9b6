//! The command.

ghost use Rattle.std.specs.Prelude.{◌≡◌, ◌≤◌, IfOk};
ghost use Rattle.causes.specs.Counts.{Rose};
ghost use Rattle.commands.specs.Told.{UnlessFault};
ghost use Rattle.pm_outside.specs.Written.{OnTold};
ghost use Rattle.instrument_command.specs.calls.Steps.{Rewrites};
ghost use Rattle.run_session.specs.Stop.{OnStop};
ghost use Rattle.selftest_command.specs.SelftestAnswer.{AnsweredOn, module_bytes, module_file, rewritten_file};
ghost use Rattle.selftest_command.specs.Stops.{CreatedBoth, SameButBoth, SelftestStops};
ghost use Rattle.selftest_command.specs.inner.Steps.{IsSelftest};
ghost use Rattle.selftest_command.specs.Selftest.{selftest};
ghost use Rattle.wasm_format_laws.specs.calls.Laws.{DecodesSame};
ghost use Rattle.wasm_format_laws.specs.calls.Sized.{Sized};
ghost use Rattle.wasm_syntax.specs.Valid.{Valid};
ghost use Rattle.pm_outside.specs.calls.Kept.{FilesGoOn};
ghost use Rattle.commands.specs.calls.Ended.{Ended};

use crate::original::original_dump;
use crate::running::run_bytes;
use crate::selftest_bytes;
use crate::writing::write_both;
use causes::NoMemory;
use commands::{Given, Outcome, load};
use host_set::Devices;
use instrument_command::{admitted_bytes, rewrite};
use pm_outside::Files;
use std::alloc::Global;
use wasm_syntax::Module;
use wasm_validate::Validated;

/// Runs the module and what it is rewritten to, and writes both.
fn test_rewritten<F: Files, D: Devices>(
    alloc: Global,
    files: &mut F,
    bytes: &[u8],
    source: &Validated,
    other: &Module,
    count: u32,
) -> Result<Outcome, NoMemory>
    requires selftest { IsSelftest count source.now }
    requires rewrites { Rewrites source.now other.now }
    requires bytes { bytes.now ≡ module_bytes count }
    ensures told { IfOk result (λ o. UnlessFault o.status
        (AnsweredOn count (F.told files.old) (F.told files.new) o)) }
    ensures stops { OnStop (λ stop.
        SelftestStops stop count (F.told files.old) (F.told files.new)) result }
    ensures ended { IfOk result (Ended (λ _. Rose (F.faults files.old) (F.faults files.new))) }
    ensures files { FilesGoOn F.told F.faults files.old files.new }
    ensures others { OnTold (SameButBoth module_file rewritten_file)
        (F.told files.old) (F.told files.new) }
    ensures names { CreatedBoth module_file rewritten_file
        (F.created files.old) (F.created files.new) }
{
    let rewritten = admitted_bytes(alloc, source, other)?;
    let own = original_dump::<D>(alloc, source, count)?;
    let done = run_bytes::<D>(alloc, &rewritten, count, &own)?;
    write_both(alloc, files, bytes, &rewritten, done)
}

/// Tests the rewriting of the module, which is that of the self-test, or tells why it is not
/// rewritten.
fn test_module<F: Files, D: Devices>(
    alloc: Global,
    files: &mut F,
    bytes: &[u8],
    source: &Validated,
    count: u32,
) -> Result<Outcome, NoMemory>
    requires selftest { IsSelftest count source.now }
    requires sized { Sized source.now }
    requires bytes { bytes.now ≡ module_bytes count }
    ensures told { IfOk result (λ o. UnlessFault o.status
        (AnsweredOn count (F.told files.old) (F.told files.new) o)) }
    ensures stops { OnStop (λ stop.
        SelftestStops stop count (F.told files.old) (F.told files.new)) result }
    ensures ended { IfOk result (Ended (λ _. Rose (F.faults files.old) (F.faults files.new))) }
    ensures files { FilesGoOn F.told F.faults files.old files.new }
    ensures others { OnTold (SameButBoth module_file rewritten_file)
        (F.told files.old) (F.told files.new) }
    ensures names { CreatedBoth module_file rewritten_file
        (F.created files.old) (F.created files.new) }
{
    let rewritten = rewrite(alloc, source)?;
    match rewritten {
        Given::Value(other) => {
            let outcome = test_rewritten::<F, D>(alloc, files, bytes, source, &other, count);
            drop(other);
            outcome
        },
        Given::Refused(refusal) => Ok(refusal),
    }
}

/// Tests the module that the bytes spell, which is that of the self-test.
fn test_bytes<F: Files, D: Devices>(
    alloc: Global,
    files: &mut F,
    bytes: &[u8],
    count: u32,
) -> Result<Outcome, NoMemory>
    requires least { 1 ≤ count }
    requires most { count ≤ 900 }
    requires bytes { bytes.now ≡ module_bytes count }
    requires same { DecodesSame (selftest count) (module_bytes count) }
    ensures told { IfOk result (λ o. UnlessFault o.status
        (AnsweredOn count (F.told files.old) (F.told files.new) o)) }
    ensures stops { OnStop (λ stop.
        SelftestStops stop count (F.told files.old) (F.told files.new)) result }
    ensures ended { IfOk result (Ended (λ _. Rose (F.faults files.old) (F.faults files.new))) }
    ensures files { FilesGoOn F.told F.faults files.old files.new }
    ensures others { OnTold (SameButBoth module_file rewritten_file)
        (F.told files.old) (F.told files.new) }
    ensures names { CreatedBoth module_file rewritten_file
        (F.created files.old) (F.created files.new) }
{
    let loaded = load(alloc, bytes)?;
    match loaded {
        Given::Value(source) => {
            let outcome = test_module::<F, D>(alloc, files, bytes, &source, count);
            drop(source);
            outcome
        }
        Given::Refused(refusal) => Ok(refusal),
    }
}

/// Makes the module of a self-test of so many functions, writes it as `selftest.wasm` and what it
/// is rewritten to as `selftest.inst.wasm`, runs both, and answers with a line on the dump, which
/// both have, and on the steps that the second one made. A file that faults is named in the answer.
/// The host side that runs them has no devices, of any kind.
///
/// # Errors
///
/// `NoMemory` where memory runs out.
pub fn selftest_files<F: Files, D: Devices>(
    alloc: Global,
    files: &mut F,
    count: u32,
) -> Result<Outcome, NoMemory>
    requires least { 1 ≤ count }
    requires most { count ≤ 900 }
    ensures told { IfOk result (λ o. UnlessFault o.status
        (AnsweredOn count (F.told files.old) (F.told files.new) o)) }
    ensures stops { OnStop (λ stop.
        SelftestStops stop count (F.told files.old) (F.told files.new)) result }
    ensures ended { IfOk result (Ended (λ _. Rose (F.faults files.old) (F.faults files.new))) }
    ensures files { FilesGoOn F.told F.faults files.old files.new }
    ensures others { OnTold (SameButBoth module_file rewritten_file)
        (F.told files.old) (F.told files.new) }
    ensures names { CreatedBoth module_file rewritten_file
        (F.created files.old) (F.created files.new) }
{
    let bytes = selftest_bytes(alloc, count)?;
    let outcome = test_bytes::<F, D>(alloc, files, &bytes, count);
    drop(bytes);
    outcome
}

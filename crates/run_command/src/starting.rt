//! Why nothing is run.

ghost use Rattle.std.specs.Prelude.{◌≡◌, ◌<◌, ◌++◌, IfOk, map, length, codes};
ghost use Rattle.pm_text.specs.Names.{quoted};
ghost use Rattle.wasm_machine.specs.calls.Entries.{entry_fault, first_unserved};
ghost use Rattle.run_session.specs.Invocations.{invocation_of};
ghost use Rattle.run_command.specs.Starting.{entries_text, not_started_with};
ghost use Rattle.std.specs.Option.{option_or};
ghost use Rattle.run_command.specs.Hosting.{import_text};
ghost use Rattle.run_command.specs.calls.Begun.{fault_text, import_in};

use causes::NoMemory;
use commands::{Outcome, Status, numbered};
use host_devices::HostSide;
use pm_text::Text;
use run_words::Invocation;
use std::alloc::Global;
use wasm_machine::{EntryFault, entry_fault};
use wasm_validate::Validated;

/// The cause that names an export.
pub fn no_export(alloc: Global, entry: &Text) -> Result<Text, NoMemory>
    ensures { IfOk result (λ t. t ≡ codes "export " ++ quoted entry.now) }
{
    let mut text = Text::from_str(alloc, "export ")?;
    text.push_quoted(entry.as_bytes())?;
    Ok(text)
}

/// Why an invocation may not begin with a host side, if it may not.
fn fault_of<H: HostSide>(
    source: &Validated,
    invocation: &Invocation,
    hosts: &H,
) -> Option<EntryFault>
    ensures { result ≡ entry_fault (H.serving hosts.now) source.now invocation.now.entry
        invocation.now.args }
{
    let entry = invocation.entry.as_str();
    entry_fault(source, entry, invocation.args.as_slice(), hosts)
}

/// Why an invocation can't be made by itself, if it can't.
fn own_cause(
    alloc: Global,
    invocation: &Invocation,
    fault: Option<EntryFault>,
) -> Result<Option<Text>, NoMemory>
    ensures { IfOk result (λ t. t ≡ fault_text invocation.now.entry fault) }
{
    match fault {
        Some(EntryFault::NoExport) => {
            let text = no_export(alloc, &invocation.entry)?;
            Ok(Some(text))
        }
        Some(EntryFault::BadArguments) => {
            let text = Text::from_str(alloc, "arguments")?;
            Ok(Some(text))
        }
        Some(EntryFault::Unserved { .. }) => Ok(None),
        None => Ok(None),
    }
}

/// The import that is not served, where that is the fault.
fn unserved(fault: Option<EntryFault>) -> Option<u32>
    ensures { result ≡ import_in fault }
{
    match fault {
        Some(EntryFault::Unserved { import }) => Some(import),
        Some(EntryFault::NoExport) => None,
        Some(EntryFault::BadArguments) => None,
        None => None,
    }
}

/// The cause that names an import, if there is one.
fn import_cause(alloc: Global, import: Option<u32>) -> Result<Option<Text>, NoMemory>
    ensures { IfOk result (λ t. t ≡ import_text import) }
{
    match import {
        Some(index) => {
            let text = numbered(alloc, "import ", u64::from(index))?;
            Ok(Some(text))
        }
        None => Ok(None),
    }
}

/// Why the first invocation that can't be made can't, or else which import is not served.
pub(crate) fn early_cause<H: HostSide>(
    alloc: Global,
    source: &Validated,
    invocations: &[Invocation],
    hosts: &H,
) -> Result<Option<Text>, NoMemory>
    requires { 0 < length invocations.now }
    ensures { IfOk result (λ t. t
        ≡ option_or (entries_text source.now (map invocation_of invocations.now))
        (import_text (first_unserved (H.serving hosts.now) source.now))) }
{
    let mut import = None;
    for invocation in invocations {
        let fault = fault_of(source, invocation, hosts);
        let cause = own_cause(alloc, invocation, fault)?;
        match cause {
            Some(text) => return Ok(Some(text)),
            None => import = unserved(fault),
        }
    }
    import_cause(alloc, import)
}

/// The answer where nothing is run.
pub(crate) fn not_started(alloc: Global, cause: &Text) -> Result<Outcome, NoMemory>
    ensures { IfOk result (λ o. o ≡ not_started_with cause.now) }
{
    let mut text = Text::from_str(alloc, "not started: ")?;
    text.push_str(cause.as_str())?;
    text.push_str("\n")?;
    Ok(Outcome {
        status: Status::NotStarted,
        text,
    })
}

//! The record of a run.

ghost use Rattle.std.specs.Prelude.{◌≡◌, ◌≢◌, ◌≤◌, ◌-◌, All, IfOk, OnOk, length, map, take};
ghost use Rattle.causes.specs.Counts.{Rose};
ghost use Rattle.host_replies.specs.Record.{IsReplyTyped, record_text};
ghost use Rattle.run_session.specs.calls.Sessions.{ends_badly};
ghost use Rattle.run_session.specs.Created.{CreatesOnly};
ghost use Rattle.run_session.specs.calls.Creating.{MayCreate};
ghost use Rattle.run_command.specs.inner.Recording.{Behind, Records, fitting, misfits_in};
ghost use Rattle.pm_outside.specs.calls.Kept.{FilesGoOn};

use causes::NoMemory;
use commands::{Outcome, Status, about_file};
use host_replies::push_reply;
use host_set::{Devices, Hosts};
use pm_outside::{Files, WriteAnswer, write_file};
use pm_text::Text;
use std::alloc::Global;
use wasm_machine::{End, Instance};

/// Whether the last invocation ended because a reply does not fit.
fn ended_badly(instance: &Instance<'_>) -> bool
    ensures { result ≡ ends_badly instance.now.last }
{
    match instance.last() {
        Some(last) => last.end == End::BadReply,
        None => false,
    }
}

/// How many replies of a run fit: all, but for the last one where it does not.
fn fitting_count<D: Devices>(instance: &Instance<'_>, hosts: &Hosts<'_, D>) -> u64
    ensures { result ≡ length hosts.now.served - misfits_in (ends_badly instance.now.last) }
{
    let given = hosts.given();
    if ended_badly(instance) {
        given.saturating_sub(1)
    } else {
        given
    }
}

/// The record of the first replies of a run.
fn record_of<D: Devices>(alloc: Global, hosts: &Hosts<'_, D>, count: u64) -> Result<Text, NoMemory>
    requires { count ≤ length hosts.now.served }
    ensures text { IfOk result (λ t. t
        ≡ record_text (map (λ s. s.1.reply) (take count hosts.now.served))) }
    ensures typed { OnOk result (All IsReplyTyped
        (map (λ s. s.1.reply) (take count hosts.now.served))) }
{
    let mut text = Text::new(alloc);
    for index in 0..count {
        push_reply(alloc, &mut text, hosts.reply(index))?;
    }
    Ok(text)
}

/// Writes the record of the replies that fit into a file, behind which this is answered.
fn write_record<F: Files, D: Devices>(
    alloc: Global,
    files: &mut F,
    file: &Text,
    instance: &Instance<'_>,
    hosts: &Hosts<'_, D>,
    outcome: Outcome,
) -> Result<Outcome, NoMemory>
    ensures behind { Behind (Some file.now)
        (fitting (ends_badly instance.now.last) hosts.now.served)
        (Rose (F.faults files.old) (F.faults files.new)) outcome result
        (F.told files.old) (F.told files.new) }
    ensures memory { outcome.status ≢ Status.NoMemory
        → IfOk result (λ o. o.status ≢ Status.NoMemory) }
    ensures names { MayCreate file.now (F.created files.old) (F.created files.new) }
    ensures files { FilesGoOn F.told F.faults files.old files.new }
{
    let text = record_of(alloc, hosts, fitting_count(instance, hosts))?;
    match write_file(files, file.as_str(), text.as_bytes()) {
        WriteAnswer::Done => Ok(outcome),
        WriteAnswer::Failed => {
            about_file(alloc, Status::FileFault, "file fault: ", file.as_str())
        }
        WriteAnswer::NoMemory => Err(NoMemory),
    }
}

/// Records a run with this answer, where a file for the record is asked for and no dump has failed.
pub(crate) fn recorded<F: Files, D: Devices>(
    alloc: Global,
    files: &mut F,
    log_to: &Option<Text>,
    instance: &Instance<'_>,
    hosts: &Hosts<'_, D>,
    outcome: Result<Outcome, NoMemory>,
) -> Result<Outcome, NoMemory>
    ensures records { Records log_to.now (fitting (ends_badly instance.now.last) hosts.now.served)
        (Rose (F.faults files.old) (F.faults files.new)) outcome result
        (F.told files.old) (F.told files.new) }
    ensures memory { IfOk outcome (λ o. o.status ≢ Status.NoMemory)
        → IfOk result (λ o. o.status ≢ Status.NoMemory) }
    ensures names { CreatesOnly (λ name. log_to.now ≡ Some name) (F.created files.old)
        (F.created files.new) }
    ensures files { FilesGoOn F.told F.faults files.old files.new }
{
    let outcome = outcome?;
    if outcome.status == Status::FileFault {
        return Ok(outcome);
    }
    let Some(file) = log_to else {
        return Ok(outcome);
    };
    write_record(alloc, files, file, instance, hosts, outcome)
}

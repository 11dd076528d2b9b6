//! The invocation on a valid module, with its steps counted.

ghost use Rattle.std.specs.Prelude.{◌≡◌, ◌<◌, ◌^◌, ◌⊎◌, [], Ok, None, true, IfOk, OnErr};
ghost use Rattle.wasm_decode.specs.Decode.{module_from};
ghost use Rattle.machine_steps.specs.calls.Tallies.{Counted};
ghost use Rattle.machine_hosted.specs.calls.Answers.{HasCause};
ghost use Rattle.host_set.specs.Sets.{AreDistinct, names};
ghost use Rattle.wasm_machine.specs.calls.Entries.{entry_fault};
ghost use Rattle.cover_command.specs.CoverAnswer.{ModuleAnswer};
ghost use Rattle.cover_command.specs.inner.Running.{Came};
ghost use Rattle.cover_command.specs.inner.Steps.{IsAnswered, ModuleStops};
ghost use Rattle.commands.specs.calls.Ended.{Ended};

use crate::ending::answer_to;
use causes::NoMemory;
use commands::{Given, Outcome};
use host_devices::HostSide;
use host_set::{Devices, Hosts};
use machine_hosted::RunEnd;
use machine_steps::Tally;
use pm_text::Items;
use run_command::begin;
use run_words::CoverWords;
use std::alloc::Global;
use std::{mem, slice};
use wasm_machine::Instance;
use wasm_syntax::Reply;
use wasm_validate::Validated;

/// Invokes the function that the words name on a new instance, with the steps that they allow. The
/// tally counts these.
fn invoke<H: HostSide>(
    words: &CoverWords,
    instance: &mut Instance<'_>,
    hosts: &mut H,
    tally: &mut Tally,
) -> RunEnd
    requires ready { instance.old.ready ≡ true }
    requires entry { entry_fault (H.serving hosts.old) instance.old.module_
        words.now.called.entry words.now.called.args ≡ None }
    requires imports { (H.origin hosts.old).imports ≡ instance.old.module_.imports }
    requires steps { instance.old.steps ≡ 0 }
    ensures came { Came words.now (H.collecting hosts.old) (H.used_up hosts.new)
        instance.old instance.new result tally.old tally.new
        (H.calls hosts.old) (H.calls hosts.new) }
    ensures cause { HasCause result (H.fault_count hosts.old) (H.fault_count hosts.new) }
    ensures origin { H.origin hosts.new ≡ H.origin hosts.old }
    ensures fuel { words.now.fuel < 2 ^ 64 }
{
    let entry = words.called.entry.as_str();
    let args = words.called.args.as_slice();
    let Ok(end) = instance.invoke_watched(entry, args, words.depth, words.fuel, hosts, tally) else {
        unreachable!();
    };
    end
}

/// Invokes the function that the words name on a valid module, which these bytes spell, tells where
/// its steps fell, and gives the devices back. The tally has counted nothing yet.
fn cover_counted<D: Devices>(
    alloc: Global,
    words: &CoverWords,
    bytes: &[u8],
    source: &Validated,
    script: Option<Items<Reply>>,
    devices: &mut D,
    tally: &mut Tally,
) -> Result<Outcome, NoMemory>
    requires distinct { AreDistinct (names (D.shown devices.old)) }
    requires spells { module_from bytes.now ≡ Ok source.now }
    requires counted { Counted source.now tally.old [] }
    ensures told { IfOk result (IsAnswered
        (λ given. ModuleAnswer (D.shown devices.old) (D.shown devices.new)
        words.now given script bytes.now source.now)
        (D.shown devices.old) (D.shown devices.new)) }
    ensures stops { OnErr result ((D.shown devices.new ≡ D.shown devices.old)
        ⊎ ModuleStops (D.shown devices.old) (D.shown devices.new) words.now source.now script) }
    ensures ended { IfOk result (Ended (λ _. ⊥)) }
    ensures distinct { AreDistinct (names (D.shown devices.new)) }
{
    let parts = source.module().parts();
    let set = mem::replace(devices, D::empty(alloc));
    let mut hosts = Hosts::new(alloc, set, script, parts.imports.as_slice());
    let begun = begin(alloc, source, slice::from_ref(&words.called), &hosts);
    let Ok(begun) = begun else {
        *devices = hosts.into_devices();
        return Err(NoMemory);
    };
    match begun {
        Given::Value(mut instance) => {
            let end = invoke(words, &mut instance, &mut hosts, tally);
            drop(instance);
            let outcome = answer_to(alloc, bytes, source, tally, &end, hosts.given());
            drop(end);
            *devices = hosts.into_devices();
            outcome
        }
        Given::Refused(refusal) => {
            *devices = hosts.into_devices();
            Ok(refusal)
        }
    }
}

/// The same, with a tally of its own.
pub(crate) fn cover_valid<D: Devices>(
    alloc: Global,
    words: &CoverWords,
    bytes: &[u8],
    source: &Validated,
    script: Option<Items<Reply>>,
    devices: &mut D,
) -> Result<Outcome, NoMemory>
    requires distinct { AreDistinct (names (D.shown devices.old)) }
    requires spells { module_from bytes.now ≡ Ok source.now }
    ensures told { IfOk result (IsAnswered
        (λ given. ModuleAnswer (D.shown devices.old) (D.shown devices.new)
        words.now given script bytes.now source.now)
        (D.shown devices.old) (D.shown devices.new)) }
    ensures stops { OnErr result ((D.shown devices.new ≡ D.shown devices.old)
        ⊎ ModuleStops (D.shown devices.old) (D.shown devices.new) words.now source.now script) }
    ensures ended { IfOk result (Ended (λ _. ⊥)) }
    ensures distinct { AreDistinct (names (D.shown devices.new)) }
{
    let mut tally = Tally::new(alloc, source.module().parts())?;
    cover_counted(alloc, words, bytes, source, script, devices, &mut tally)
}

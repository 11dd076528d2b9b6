//! Lists of invocations on one instance.

ghost use Rattle.std.specs.Prelude.{◌≡◌, ◌≢◌, ◌<◌, ◌≤◌, ◌+◌, ◌-◌, ◌^◌, ◌∷◌, [], List, None, All, map, IfOk, true};
ghost use Rattle.std.specs.Prelude.{false, length};
ghost use Rattle.causes.specs.Counts.{Rose};
ghost use Rattle.wasm_syntax.specs.declared.host.CollectorCall.{CollectorCall as Call};
ghost use Rattle.wasm_syntax.specs.Module.{Program};
ghost use Rattle.wasm_syntax.specs.Run.{Invocation as Invoking, engine};
ghost use Rattle.wasm_machine.specs.calls.Instances.{IsOf};
ghost use Rattle.wasm_machine.specs.calls.Entries.{entry_fault};
ghost use Rattle.machine_hosted.specs.calls.Answers.{HasCause};
ghost use Rattle.machine_hosted.specs.calls.Settings.{HostKept};
ghost use Rattle.commands.specs.Texts.{file_fault};
ghost use Rattle.commands.specs.Told.{UnlessFault};
ghost use Rattle.run_session.specs.Delivery.{Delivery, IsDelivery};
ghost use Rattle.run_session.specs.Telling.{tells};
ghost use Rattle.run_session.specs.RunText.{dump_name};
ghost use Rattle.run_session.specs.Created.{CreatesOnly};
ghost use Rattle.run_session.specs.calls.Creating.{MayCreate, IsDumpName};
ghost use Rattle.run_session.specs.Invocations.{invocation_of, depth_of};
ghost use Rattle.run_session.specs.calls.Collecting.{serving_of, used_up_of, collecting_of, KeptBehind};
ghost use Rattle.run_session.specs.inner.Turns.{UnlessRefused, IfGoesOn, IfEnds, IfTurnRefused};
ghost use Rattle.run_session.specs.Stop.{OnStop};
ghost use Rattle.run_session.specs.calls.Sessions.{point_of, ends_badly, MadeOne, RanAll, IsDumpFault, StopsIn};
ghost use Rattle.run_session.specs.calls.Sessions.{OnTurnStop};
ghost use Rattle.pm_outside.specs.calls.Kept.{FilesGoOn};

use crate::ending::{all_made, ended_with, torn_with};
use crate::turns::{Lines, Outside, Turn, end_turn};
use causes::NoMemory;
use commands::{Outcome, Status};
use host_collector::Collecting;
use host_devices::HostSide;
use host_set::{Devices, Hosts};
use machine_hosted::RunEnd;
use pm_outside::Files;
use pm_text::Text;
use run_words::{Invocation, RunWords};
use std::alloc::Global;
use wasm_machine::Instance;
use wasm_syntax::CollectorCall;

/// A host side that counts the replies that it gave, and keeps the calls of the collector.
pub trait Counting: HostSide {
    /// How many calls were served since it was made.
    fn given(&self) -> u64
        ensures { result ≡ length (Self.calls self.now).served };

    /// The calls of the collector since it was made, in order.
    fn collected(&self) -> &[CollectorCall]
        ensures { result.now ≡ (Self.calls self.now).collected };
}

impl<D: Devices> Counting for Hosts<'_, D> {
    fn given(&self) -> u64 {
        Hosts::given(self)
    }

    fn collected(&self) -> &[CollectorCall] {
        &[]
    }
}

impl<H: Counting> Counting for Collecting<H> {
    fn given(&self) -> u64 {
        self.inner().given()
    }

    fn collected(&self) -> &[CollectorCall] {
        self.calls()
    }
}

/// How many frames may stand.
fn depth_of(words: &RunWords) -> u32
    requires { words.now.depth ≤ 10000 }
    ensures { result ≡ depth_of words.now }
{
    if words.collect {
        words.depth + 2
    } else {
        words.depth
    }
}

/// Makes one invocation, with the steps that are left of those for the whole list. The host side
/// collects where the words ask for a collector, and has collected nothing.
pub(crate) fn run_one<F: Files, H: Counting>(
    alloc: Global,
    files: &mut F,
    words: &RunWords,
    invocation: &Invocation,
    instance: &mut Instance<'_>,
    hosts: &mut H,
    lines: &mut Lines,
) -> Result<Turn, NoMemory>
    requires depth { words.now.depth ≤ 10000 }
    requires collecting { H.collecting hosts.old ≡ words.now.collect }
    requires collected { words.now.collect ≡ true → (H.calls hosts.old).collected ≡ [] }
    requires ready { instance.old.ready ≡ true }
    requires entry { entry_fault (H.serving hosts.old) instance.old.module_ invocation.now.entry
        invocation.now.args ≡ None }
    requires imports { (H.origin hosts.old).imports ≡ instance.old.module_.imports }
    requires traps { lines.old.traps < 2 ^ 64 - 1 }
    ensures made { (deliver : List Call → Delivery) → IsDelivery deliver → (p : Program)
        → IsOf instance.old p → IfOk result
        (λ turn. UnlessRefused turn (MadeOne (tells words.now.collect deliver) p
        (engine p words.now.collect (depth_of words.now)) words.now.dump words.now.name
        (H.used_up hosts.new) instance.old instance.new (invocation_of invocation.now)
        words.now.fuel lines.old lines.new (H.calls hosts.old).served (H.calls hosts.new).served
        (F.told files.old) (F.told files.new) turn)) }
    ensures stops { (deliver : List Call → Delivery) → IsDelivery deliver
        → (p : Program) (rest : List Invoking) → IsOf instance.old p
        → instance.old.steps ≤ words.now.fuel
        → OnTurnStop (λ stop. StopsIn (tells words.now.collect deliver) stop
        (engine p words.now.collect (depth_of words.now)) words.now.dump words.now.name
        lines.old.traps instance.old (invocation_of invocation.now ∷ rest) words.now.fuel
        (H.calls hosts.old).served (H.calls hosts.new).served (F.told files.old) (F.told files.new))
        result }
    ensures ready { IfOk result (IfGoesOn (instance.new.ready ≡ true)) }
    ensures same { instance.new.module_ ≡ instance.old.module_ }
    ensures host { HostKept H.origin H.collecting H.serving H.fault_count hosts.old hosts.new }
    ensures memory { IfOk result (IfEnds (λ answer. answer ≢ RunEnd.NoMemory)) }
    ensures cause { IfOk result (IfEnds
        (λ answer. HasCause answer (H.fault_count hosts.old) (H.fault_count hosts.new))) }
    ensures one { lines.new.traps ≤ lines.old.traps + 1 }
    ensures refused { IfOk result
        (IfTurnRefused (λ o. (o ≡ file_fault (dump_name words.now.dump lines.old.traps))
        × Rose (F.faults files.old) (F.faults files.new))) }
    ensures names { MayCreate (dump_name words.now.dump lines.old.traps) (F.created files.old)
        (F.created files.new) }
    ensures files { FilesGoOn F.told F.faults files.old files.new }
{
    let before = hosts.given();
    let left = words.fuel.saturating_sub(instance.steps());
    let entry = invocation.entry.as_str();
    let args = invocation.args.as_slice();
    let Ok(end) = instance.invoke(entry, args, depth_of(words), left, hosts) else {
        unreachable!();
    };
    let calls = hosts.given().saturating_sub(before);
    end_turn(
        alloc,
        files,
        words,
        instance,
        end,
        &Outside {
            collected: hosts.collected(),
            calls,
        },
        lines,
    )
}

/// Makes one invocation, where the words ask for it with a collector of its own in front of the
/// host side, which comes back.
fn run_next<F: Files, H: Counting>(
    alloc: Global,
    files: &mut F,
    words: &RunWords,
    invocation: &Invocation,
    instance: &mut Instance<'_>,
    hosts: H,
    lines: &mut Lines,
) -> (Result<Turn, NoMemory>, H)
    requires depth { words.now.depth ≤ 10000 }
    requires plain { collecting_of words.now.collect (H.collecting hosts) ≡ words.now.collect }
    requires ready { instance.old.ready ≡ true }
    requires entry { entry_fault (serving_of words.now.collect (H.serving hosts))
        instance.old.module_ invocation.now.entry invocation.now.args ≡ None }
    requires imports { (H.origin hosts).imports ≡ instance.old.module_.imports }
    requires traps { lines.old.traps < 2 ^ 64 - 1 }
    ensures made { (deliver : List Call → Delivery) → IsDelivery deliver → (p : Program)
        → IsOf instance.old p → IfOk result.0
        (λ turn. UnlessRefused turn (MadeOne (tells words.now.collect deliver) p
        (engine p words.now.collect (depth_of words.now)) words.now.dump words.now.name
        (used_up_of words.now.collect (H.used_up result.1)) instance.old instance.new
        (invocation_of invocation.now) words.now.fuel lines.old lines.new (H.calls hosts).served
        (H.calls result.1).served (F.told files.old) (F.told files.new) turn)) }
    ensures stops { (deliver : List Call → Delivery) → IsDelivery deliver
        → (p : Program) (rest : List Invoking) → IsOf instance.old p
        → instance.old.steps ≤ words.now.fuel
        → OnTurnStop (λ stop. StopsIn (tells words.now.collect deliver) stop
        (engine p words.now.collect (depth_of words.now)) words.now.dump words.now.name
        lines.old.traps instance.old (invocation_of invocation.now ∷ rest) words.now.fuel
        (H.calls hosts).served (H.calls result.1).served (F.told files.old) (F.told files.new))
        result.0 }
    ensures ready { IfOk result.0 (IfGoesOn (instance.new.ready ≡ true)) }
    ensures same { instance.new.module_ ≡ instance.old.module_ }
    ensures host { KeptBehind H.origin H.collecting H.serving H.fault_count words.now.collect hosts
        result.1 }
    ensures memory { IfOk result.0 (IfEnds (λ answer. answer ≢ RunEnd.NoMemory)) }
    ensures cause { IfOk result.0
        (IfEnds (λ answer. HasCause answer (H.fault_count hosts) (H.fault_count result.1))) }
    ensures one { lines.new.traps ≤ lines.old.traps + 1 }
    ensures refused { IfOk result.0
        (IfTurnRefused (λ o. (o ≡ file_fault (dump_name words.now.dump lines.old.traps))
        × Rose (F.faults files.old) (F.faults files.new))) }
    ensures names { MayCreate (dump_name words.now.dump lines.old.traps) (F.created files.old)
        (F.created files.new) }
    ensures files { FilesGoOn F.told F.faults files.old files.new }
{
    if words.collect {
        let mut collecting = Collecting::new(alloc, hosts);
        let turn = run_one(
            alloc,
            files,
            words,
            invocation,
            instance,
            &mut collecting,
            lines,
        );
        (turn, collecting.into_inner())
    } else {
        let mut plain = hosts;
        let turn_there = run_one(alloc, files, words, invocation, instance, &mut plain, lines);
        (turn_there, plain)
    }
}

/// Makes the invocations that the words name one after the other on a new instance, up to the first
/// one behind which the list does not go on, and writes a dump at each trap. There is at least one,
/// all of them have their entries in the module, and the host side serves its imports and has
/// served no call yet; it comes back. Where the words ask for a collector, each invocation has one
/// of its own, and one whose collector calls are torn ends the list. All steps together are at most
/// the fuel. The answer has the lines of what was run, and the status by its end. A dump whose file
/// faults is named in the answer and ends the list; dumps that were written before it stand.
///
/// # Errors
///
/// `NoMemory` where memory runs out.
pub fn run_all<F: Files, H: Counting>(
    alloc: Global,
    files: &mut F,
    words: &RunWords,
    instance: &mut Instance<'_>,
    hosts: H,
) -> (Result<Outcome, NoMemory>, H)
    requires depth { words.now.depth ≤ 10000 }
    requires plain { H.collecting hosts ≡ false }
    requires ready { instance.old.ready ≡ true }
    requires entries { All (λ i. entry_fault (serving_of words.now.collect (H.serving hosts))
        instance.old.module_ i.entry i.args ≡ None) words.now.invocations }
    requires some { 0 < length words.now.invocations }
    requires imports { (H.origin hosts).imports ≡ instance.old.module_.imports }
    requires steps { instance.old.steps ≡ 0 }
    requires calls { (H.calls hosts).served ≡ [] }
    ensures ran { (deliver : List Call → Delivery) → IsDelivery deliver → (p : Program)
        → IsOf instance.old p → IfOk result.0
        (λ o. UnlessFault o.status (RanAll (tells words.now.collect deliver) p
        (engine p words.now.collect (depth_of words.now)) words.now.dump words.now.name
        (used_up_of words.now.collect (H.used_up result.1)) (H.fault_count hosts)
        (H.fault_count result.1) (ends_badly instance.new.last)
        (point_of instance.old (map invocation_of words.now.invocations) words.now.fuel)
        (H.calls hosts).served (H.calls result.1).served (F.told files.old) (F.told files.new) o)) }
    ensures stops { (deliver : List Call → Delivery) → IsDelivery deliver → (p : Program)
        → IsOf instance.old p → OnStop
        (λ stop. StopsIn (tells words.now.collect deliver) stop
        (engine p words.now.collect (depth_of words.now)) words.now.dump words.now.name 0
        instance.old (map invocation_of words.now.invocations) words.now.fuel (H.calls hosts).served
        (H.calls result.1).served (F.told files.old) (F.told files.new)) result.0 }
    ensures memory { IfOk result.0 (λ o. o.status ≢ Status.NoMemory) }
    ensures fault { IfOk result.0
        (λ o. o.status ≡ Status.FileFault
        → IsDumpFault words.now.dump o × Rose (F.faults files.old) (F.faults files.new)) }
    ensures origin { H.origin result.1 ≡ H.origin hosts }
    ensures names { CreatesOnly (IsDumpName words.now.dump (length words.now.invocations))
        (F.created files.old) (F.created files.new) }
    ensures files { FilesGoOn F.told F.faults files.old files.new }
{
    let mut hosts = hosts;
    let mut lines = Lines {
        text: Text::new(alloc),
        traps: 0,
    };
    let invocations = words.invocations.as_slice();
    for index in 0..invocations.len() {
        let invocation = &invocations[index];
        let (turn, back) = run_next(alloc, files, words, invocation, instance, hosts, &mut lines);
        hosts = back;
        let Ok(turn) = turn else {
            return (Err(NoMemory), hosts);
        };
        match turn {
            Turn::GoesOn => {}
            Turn::Ends(answer) => {
                let due = invocations.len() - index - 1;
                let outcome = ended_with(alloc, lines, &answer, hosts.given(), due);
                return (outcome, hosts);
            }
            Turn::Torn(at) => return (torn_with(lines, at), hosts),
            Turn::Refused(refusal) => return (Ok(refusal), hosts),
        }
    }
    (Ok(all_made(lines)), hosts)
}

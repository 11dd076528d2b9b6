//! Sets of boxed devices, and what they serve.

ghost use Rattle.std.specs.Prelude.{◌≡◌, [], IfOk};
ghost use Rattle.host_set.specs.Sets.{AreDistinct, names};

use causes::NoMemory;
use host_devices::{Console, Counter, Device, DeviceAnswer, HostAnswer, HostSide, Scripted};
use host_set::{DeviceSet, Devices, Hosts};
use linear_memory::Memory;
use pm_text::{Items, Text};
use std::alloc::{AllocError, Global};
use std::cell::Cell;
use std::mem;
use std::rc::Rc;
use wasm_syntax::{HostCall, Import, Reply, Served, ValType, Value};

/// An import of each of these modules.
fn imports(alloc: Global, modules: [&str; 2]) -> Result<Items<Import>, NoMemory> {
    let [first, second] = modules;
    let mut imports = Items::new(alloc);
    imports.push(import(alloc, first)?)?;
    imports.push(import(alloc, second)?)?;
    Ok(imports)
}

fn import(alloc: Global, module: &str) -> Result<Import, NoMemory> {
    Ok(Import {
        module: Text::from_str(alloc, module)?,
        name: Text::from_str(alloc, "next")?,
        ftype: 0,
    })
}

fn call_of(alloc: Global, import: u32) -> Result<HostCall, NoMemory>
    ensures { IfOk result (λ c. c.«import» ≡ import) }
{
    Ok(HostCall {
        import,
        name: Text::from_str(alloc, "next")?,
        args: Items::new(alloc),
        result: Some(ValType::I32),
    })
}

/// Replies with these values.
fn replies(alloc: Global, values: [u32; 2]) -> Result<Items<Reply>, NoMemory> {
    let [first, second] = values;
    let mut replies = Items::new(alloc);
    replies.push(reply(alloc, first))?;
    replies.push(reply(alloc, second))?;
    Ok(replies)
}

fn reply(alloc: Global, value: u32) -> Reply {
    Reply {
        value: Some(Value::I32(value)),
        writes: Items::new(alloc),
    }
}

/// The number of an import, and the value of the reply to a call of it, or else the name of the
/// device that failed, or a word.
type Row = (u32, Result<u32, &'static str>);

fn is_wanted(answer: &HostAnswer, wanted: Result<u32, &str>) -> bool {
    match answer {
        HostAnswer::Replied(reply) => match wanted {
            Ok(value) => reply.value == Some(Value::I32(value)),
            Err(_) => false,
        },
        HostAnswer::Failed(name) => wanted == Err(name.as_str()),
        HostAnswer::NoReply => wanted == Err("(no reply)"),
        HostAnswer::NoMemory => false,
    }
}

/// Whether a call gets what a row says.
fn is_answered<S: Devices>(
    alloc: Global,
    hosts: &mut Hosts<'_, S>,
    imports: &[Import],
    row: &Row,
) -> bool
    requires { hosts.old.imports ≡ imports.now }
    ensures { hosts.new.imports ≡ imports.now }
{
    let Some(import) = imports.get(row.0 as usize) else {
        return false;
    };
    match call_of(alloc, row.0) {
        Ok(call) => is_wanted(&hosts.call(import, &call, None), row.1),
        Err(_) => false,
    }
}

/// The value of the first reply that was served.
fn first_given<S: Devices>(hosts: &Hosts<'_, S>) -> Option<Value> {
    if hosts.given() == 0 {
        return None;
    }
    hosts.reply(0).value
}

/// Two modules that are imported from, whether a script replies 5 and 6, three calls, the value of
/// the first reply, and what two devices tell then: their names, how many calls they have replied
/// to, and how many failed.
struct Case {
    modules: [&'static str; 2],
    is_scripted: bool,
    rows: [Row; 3],
    first: u32,
    told: [(&'static str, Option<(usize, u64)>); 2],
}

fn script_of(alloc: Global, case: &Case) -> Result<Option<Items<Reply>>, NoMemory> {
    if case.is_scripted {
        return Ok(Some(replies(alloc, [5, 6])?));
    }
    Ok(None)
}

/// Whether devices and a script serve so.
fn are_answered<S: Devices>(
    alloc: Global,
    hosts: &mut Hosts<'_, S>,
    imports: &[Import],
    case: &Case,
) -> bool
    requires { hosts.old.imports ≡ imports.now }
{
    let [first, second, third] = &case.rows;
    is_answered(alloc, hosts, imports, first)
        && is_answered(alloc, hosts, imports, second)
        && is_answered(alloc, hosts, imports, third)
        && first_given(hosts) == Some(Value::I32(case.first))
}

fn are_told(devices: &DeviceSet, case: &Case) -> bool {
    let [first, second] = &case.told;
    counts(devices, first.0) == first.1 && counts(devices, second.0) == second.1
}

/// Whether devices serve so with a script. They have replied then.
fn serve_with<S: Devices>(
    alloc: Global,
    devices: &mut S,
    script: Option<Items<Reply>>,
    imports: &[Import],
    case: &Case,
) -> bool
    requires { AreDistinct (names (S.shown devices.old)) }
{
    let empty = S::empty(alloc);
    let mut hosts = Hosts::new(alloc, mem::replace(devices, empty), script, imports);
    let is_so = are_answered(alloc, &mut hosts, imports, case);
    *devices = hosts.into_devices();
    is_so
}

/// Whether a case holds of devices and imports.
fn serves(
    alloc: Global,
    devices: &mut DeviceSet,
    imports: &[Import],
    case: &Case,
) -> Result<bool, NoMemory>
    requires { AreDistinct (names (⟦<DeviceSet as Devices>⟧.shown devices.old)) }
{
    let script = script_of(alloc, case)?;
    Ok(serve_with(alloc, devices, script, imports, case) && are_told(devices, case))
}

/// Attaches a device. The answer is how many calls the one that it replaces has replied to.
fn attach(devices: &mut DeviceSet, device: Box<dyn Device>) -> Result<Option<usize>, NoMemory>
    ensures { AreDistinct (names (⟦<DeviceSet as Devices>⟧.shown devices.old))
        → AreDistinct (names (⟦<DeviceSet as Devices>⟧.shown devices.new)) }
{
    match devices.attach(device) {
        Ok(replaced) => Ok(logged(&replaced)),
        Err(_) => Err(NoMemory),
    }
}

/// Releases a device. The answer is how many calls it has replied to.
fn release(devices: &mut DeviceSet, name: &str) -> Option<usize> {
    logged(&devices.release(name))
}

/// How many calls the device of a name has replied to, and how many failed.
fn counts(devices: &DeviceSet, name: &str) -> Option<(usize, u64)> {
    match devices.get(name) {
        Some(device) => Some((device.log().len(), device.faults())),
        None => None,
    }
}

/// How many calls a device has replied to.
fn logged(device: &Option<Box<dyn Device>>) -> Option<usize> {
    match device {
        Some(device) => Some(device.log().len()),
        None => None,
    }
}

/// A counter that was called once.
fn called(alloc: Global) -> Result<Counter, NoMemory> {
    let mut counter = Counter::new(alloc);
    counter.call(&call_of(alloc, 0)?, None);
    Ok(counter)
}

/// Whether a device that is replaced or released is handed back.
fn is_handed_back(alloc: Global) -> Result<bool, NoMemory> {
    let mut devices = DeviceSet::new(alloc);
    let first = attach(&mut devices, Box::new(alloc, Counter::new(alloc))?)?;
    let console = attach(
        &mut devices,
        Box::new(alloc, Console::new(alloc, Vec::new(alloc)))?,
    )?;
    let again = attach(&mut devices, Box::new(alloc, called(alloc)?)?)?;
    Ok(
        first.is_none()
            && console.is_none()
            && again == Some(0)
            && counts(&devices, "counter") == Some((1, 0))
            && counts(&devices, "console") == Some((0, 0))
            && release(&mut devices, "counter") == Some(1)
            && counts(&devices, "counter").is_none()
            && release(&mut devices, "counter").is_none(),
    )
}

/// A device that counts how many such devices are dropped.
struct Dropping {
    drops: Rc<Cell<u64>>,
}

impl Drop for Dropping {
    fn drop(self) {
        let Self { drops } = self;
        drops.set(drops.get().wrapping_add(1));
    }
}

impl Device for Dropping {
    ghost title = { λ _. [] };

    ghost served = { λ _. [] };

    ghost fault_count = { λ _. 0 };

    fn name(&self) -> &str {
        ""
    }

    fn log(&self) -> &[Served] {
        &[]
    }

    fn faults(&self) -> u64 {
        0
    }

    fn call(&mut self, _call: &HostCall, _memory: Option<&Memory>) -> DeviceAnswer {
        DeviceAnswer::NoMemory
    }
}

fn counted(drops: &Rc<Cell<u64>>) -> Result<Dropping, AllocError> {
    Ok(Dropping {
        drops: drops.clone()?,
    })
}

/// Whether devices that are left are dropped with the set, and one that is replaced with what is
/// handed back.
fn are_dropped(alloc: Global) -> Result<bool, AllocError> {
    let drops = Rc::new(alloc, Cell::new(0))?;
    let mut devices = DeviceSet::new(alloc);
    let first = devices.attach(Box::new(alloc, counted(&drops)?)?);
    let none_at_first = drops.get() == 0;
    let second = devices.attach(Box::new(alloc, counted(&drops)?)?);
    drop(first);
    let none_then = drops.get() == 0;
    drop(second);
    let one = drops.get() == 1;
    drop(devices);
    Ok(none_at_first && none_then && one && drops.get() == 2)
}

#[test]
fn devices_are_handed_back_and_dropped(rt: HostRuntime) {
    assert!(rt; is_handed_back(rt.alloc()) == Ok(true));
    assert!(rt; are_dropped(rt.alloc()) == Ok(true));
}

const NONE: (&str, Option<(usize, u64)>) = ("counter", None);

/// A script that ends.
const SCRIPT: Case = Case {
    modules: ["env", "counter"],
    is_scripted: true,
    rows: [(0, Ok(5)), (1, Ok(6)), (0, Err("(no reply)"))],
    first: 5,
    told: [NONE, NONE],
};

/// A counter that was called once.
const CALLED: Case = Case {
    modules: ["counter", "env"],
    is_scripted: false,
    rows: [(0, Ok(1)), (0, Ok(2)), (0, Ok(3))],
    first: 1,
    told: [("counter", Some((4, 0))), ("env", None)],
};

/// A new counter, which goes before the script.
const BEFORE: Case = Case {
    modules: ["env", "counter"],
    is_scripted: true,
    rows: [(1, Ok(0)), (0, Ok(5)), (1, Ok(1))],
    first: 0,
    told: [("counter", Some((2, 0))), ("env", None)],
};

/// A device for `env` that replies 5 and 6, and fails at once, and a counter.
const FAULT: Case = Case {
    modules: ["env", "counter"],
    is_scripted: false,
    rows: [(0, Err("env")), (1, Ok(0)), (0, Ok(5))],
    first: 0,
    told: [("counter", Some((1, 0))), ("env", Some((1, 1)))],
};

fn failing(alloc: Global) -> Result<Scripted, NoMemory> {
    let name = Text::from_str(alloc, "env")?;
    let replies = replies(alloc, [5, 6])?;
    Ok(Scripted::new(alloc, name, replies, Vec::from_slice(alloc, &[0])?))
}

fn with_counter(
    alloc: Global,
    counter: Counter,
    imports: &[Import],
    case: &Case,
) -> Result<bool, NoMemory> {
    let mut devices = DeviceSet::new(alloc);
    attach(&mut devices, Box::new(alloc, counter)?)?;
    serves(alloc, &mut devices, imports, case)
}

fn with_failing(alloc: Global, imports: &[Import], case: &Case) -> Result<bool, NoMemory> {
    let mut devices = DeviceSet::new(alloc);
    attach(&mut devices, Box::new(alloc, failing(alloc)?)?)?;
    attach(&mut devices, Box::new(alloc, Counter::new(alloc))?)?;
    serves(alloc, &mut devices, imports, case)
}

/// The devices of a case.
#[derive(Clone, Copy)]
enum Kind {
    Nothing,
    Called,
    Counter,
    Failing,
}

fn holds(alloc: Global, kind: Kind, case: &Case) -> Result<bool, NoMemory> {
    let imports = imports(alloc, case.modules)?;
    let imports = imports.as_slice();
    match kind {
        Kind::Nothing => serves(alloc, &mut DeviceSet::new(alloc), imports, case),
        Kind::Called => with_counter(alloc, called(alloc)?, imports, case),
        Kind::Counter => with_counter(alloc, Counter::new(alloc), imports, case),
        Kind::Failing => with_failing(alloc, imports, case),
    }
}

const CASES: [(Kind, Case); 4] = [
    (Kind::Nothing, SCRIPT),
    (Kind::Called, CALLED),
    (Kind::Counter, BEFORE),
    (Kind::Failing, FAULT),
];

/// The number of the first case that does not hold, if there is one.
fn first_wrong(alloc: Global, cases: &[(Kind, Case)]) -> Option<usize> {
    for (i, row) in cases.iter().enumerate() {
        if holds(alloc, row.0, &row.1) != Ok(true) {
            return Some(i);
        }
    }
    None
}

#[test]
fn devices_and_scripts_serve(rt: HostRuntime) {
    assert_eq!(rt; first_wrong(rt.alloc(), &CASES), None);
}

//! Devices that look at the memory, count, fail, complain, or count their drops, under `run`.

ghost use Rattle.std.specs.Prelude.{codes};
ghost use Rattle.host_set.specs.Sets.{AreDistinct, names};

use crate::devices::{new_complaining, new_looking};
use crate::trial::{are_served, files_of};
use host_devices::{Console, Counter, Device, DeviceAnswer};
use host_set::{DeviceSet, Devices};
use linear_memory::Memory;
use std::alloc::{AllocError, Global};
use std::cell::Cell;
use std::rc::Rc;
use test_modules::{FAR_STORES_LENT, LENDING, PRINTING, TWICE_NEXT};
use wasm_syntax::{HostCall, Served, Value};

/// A kind of device.
#[derive(Clone, Copy)]
enum Kind {
    Looking,
    Counter,
    Console,
    /// A console whose second call fails.
    FailingConsole,
    Complaining,
}

impl Kind {
    /// The name of its devices.
    fn name(self) -> &'static str {
        match self {
            Kind::Looking => "memory",
            Kind::Counter => "counter",
            Kind::Console | Kind::FailingConsole | Kind::Complaining => "console",
        }
    }
}

/// A call that a device replied to: its name, its argument if it has one, and the value of the
/// reply.
type Logged = (&'static str, Option<Value>, Option<Value>);

/// A device, a module, the words behind `run m`, the status and the text, and the log and the
/// faults of the device then.
struct Row {
    device: Kind,
    source: &'static [u8],
    line: &'static str,
    status: u8,
    text: &'static str,
    log: &'static [Logged],
    faults: u64,
}

const ROWS: [Row; 9] = [
    // A device sees the memory, and no further.
    Row {
        device: Kind::Looking,
        source: &LENDING,
        line: "f i32:16",
        status: 0,
        text: "finished i32:7\nhost calls 1\n",
        log: &[("at", Some(Value::I32(16)), Some(Value::I32(7)))],
        faults: 0,
    },
    Row {
        device: Kind::Looking,
        source: &LENDING,
        line: "f i32:17",
        status: 0,
        text: "finished i32:42\nhost calls 1\n",
        log: &[("at", Some(Value::I32(17)), Some(Value::I32(42)))],
        faults: 0,
    },
    Row {
        device: Kind::Looking,
        source: &LENDING,
        line: "f i32:65536",
        status: 9,
        text: "host stopped: reply 0 does not fit\n",
        log: &[("at", Some(Value::I32(65_536)), None)],
        faults: 0,
    },
    // It sees what was stored, and nothing of an earlier invocation.
    Row {
        device: Kind::Looking,
        source: &LENDING,
        line: "g i32:17 + f i32:16 + f i32:17",
        status: 0,
        text: "finished i32:9\nhost calls 1\nfinished i32:7\nhost calls 1\nfinished i32:9\nhost calls 1\n",
        log: &[
            ("at", Some(Value::I32(17)), Some(Value::I32(9))),
            ("at", Some(Value::I32(16)), Some(Value::I32(7))),
            ("at", Some(Value::I32(17)), Some(Value::I32(9))),
        ],
        faults: 0,
    },
    // Pages between far stores are not made.
    Row {
        device: Kind::Looking,
        source: &FAR_STORES_LENT,
        line: "f",
        status: 1,
        text: "trap 1 unreachable\nat function 1 offset 21\nhost calls 1\n",
        log: &[("made", None, Some(Value::I32(2)))],
        faults: 0,
    },
    // The first value is 0, the second one 1.
    Row {
        device: Kind::Counter,
        source: &TWICE_NEXT,
        line: "f",
        status: 0,
        text: "finished i32:1\nhost calls 2\n",
        log: &[
            ("next", None, Some(Value::I32(0))),
            ("next", None, Some(Value::I32(1))),
        ],
        faults: 0,
    },
    Row {
        device: Kind::Console,
        source: &PRINTING,
        line: "f",
        status: 0,
        text: "finished\nhost calls 2\n",
        log: &[
            ("put", Some(Value::I32(1)), None),
            ("put", Some(Value::I32(2)), None),
        ],
        faults: 0,
    },
    // A device that fails stops the run.
    Row {
        device: Kind::FailingConsole,
        source: &PRINTING,
        line: "f",
        status: 9,
        text: "host stopped: device \"console\"\n",
        log: &[("put", Some(Value::I32(1)), None)],
        faults: 1,
    },
    // A count of faults may rise at a reply.
    Row {
        device: Kind::Complaining,
        source: &PRINTING,
        line: "f",
        status: 0,
        text: "finished\nhost calls 2\n",
        log: &[
            ("put", Some(Value::I32(1)), None),
            ("put", Some(Value::I32(2)), None),
        ],
        faults: 2,
    },
];

/// Whether a call was logged so.
fn is_logged(served: &Served, wanted: &Logged) -> bool {
    served.call.name.as_str() == wanted.0
        && served.call.args.len() == usize::from(wanted.1.is_some())
        && served.call.args.as_slice().first().copied() == wanted.1
        && served.reply.value == wanted.2
}

/// Whether a log holds these calls.
fn are_logged(log: &[Served], wanted: &[Logged]) -> bool {
    for (served, wanted) in log.iter().zip(wanted.iter()) {
        if !is_logged(served, wanted) {
            return false;
        }
    }
    log.len() == wanted.len()
}

/// Whether the device of a row tells what it has to.
fn tells(devices: &DeviceSet, row: &Row) -> bool {
    match devices.get(row.device.name()) {
        Some(device) => device.faults() == row.faults && are_logged(device.log(), row.log),
        None => false,
    }
}

/// Whether a module gets this with these devices.
fn runs(
    alloc: Global,
    source: &[u8],
    line: &str,
    devices: &mut DeviceSet,
    wanted: (u8, &str),
) -> bool
    requires { AreDistinct (names (⟦<DeviceSet as Devices>⟧.shown devices.old)) }
{
    match files_of(alloc, source, b"", &[]) {
        Ok(mut files) => are_served(alloc, ["run m", line], &mut files, devices, wanted),
        Err(_) => false,
    }
}

/// Whether a row holds with these devices.
fn serves(alloc: Global, row: &Row, devices: &mut DeviceSet) -> bool
    requires { AreDistinct (names (⟦<DeviceSet as Devices>⟧.shown devices.old)) }
{
    let wanted = (row.status, row.text);
    runs(alloc, row.source, row.line, devices, wanted) && tells(devices, row)
}

// One function for each kind: it makes the device and attaches it.

fn with_looking(alloc: Global, row: &Row) -> Result<bool, AllocError> {
    let mut devices = DeviceSet::new(alloc);
    match devices.attach(Box::new(alloc, new_looking(alloc))?) {
        Ok(_) => Ok(serves(alloc, row, &mut devices)),
        Err(_) => Ok(false),
    }
}

fn with_counter(alloc: Global, row: &Row) -> Result<bool, AllocError> {
    let mut devices = DeviceSet::new(alloc);
    match devices.attach(Box::new(alloc, Counter::new(alloc))?) {
        Ok(_) => Ok(serves(alloc, row, &mut devices)),
        Err(_) => Ok(false),
    }
}

/// The calls of the console with these numbers fail.
fn with_console(alloc: Global, row: &Row, failing: Vec<u64>) -> Result<bool, AllocError> {
    let mut devices = DeviceSet::new(alloc);
    match devices.attach(Box::new(alloc, Console::new(alloc, failing))?) {
        Ok(_) => Ok(serves(alloc, row, &mut devices)),
        Err(_) => Ok(false),
    }
}

fn with_complaining(alloc: Global, row: &Row) -> Result<bool, AllocError> {
    let mut devices = DeviceSet::new(alloc);
    match devices.attach(Box::new(alloc, new_complaining(alloc))?) {
        Ok(_) => Ok(serves(alloc, row, &mut devices)),
        Err(_) => Ok(false),
    }
}

fn holds(alloc: Global, row: &Row) -> Result<bool, AllocError> {
    match row.device {
        Kind::Looking => with_looking(alloc, row),
        Kind::Counter => with_counter(alloc, row),
        Kind::Console => with_console(alloc, row, Vec::new(alloc)),
        Kind::FailingConsole => with_console(alloc, row, vec![in alloc; 1]?),
        Kind::Complaining => with_complaining(alloc, row),
    }
}

fn all_hold(alloc: Global, rows: &[Row]) -> bool {
    for row in rows {
        if holds(alloc, row) != Ok(true) {
            return false;
        }
    }
    true
}

#[test]
fn devices_serve_runs(rt: HostRuntime) {
    assert!(rt; all_hold(rt.alloc(), &ROWS));
}

/// A console that counts how many such devices are dropped.
struct Dropping {
    console: Console,
    drops: Rc<Cell<u64>>,
}

impl Drop for Dropping {
    fn drop(self) {
        let Self { console, drops } = self;
        drop(console);
        drops.set(drops.get().wrapping_add(1));
    }
}

impl Device for Dropping {
    ghost title = { λ _. codes "console" };

    ghost served = { λ d. d.console.log };

    ghost fault_count = { λ d. d.console.plan.count };

    fn name(&self) -> &str {
        self.console.name()
    }

    fn log(&self) -> &[Served] {
        self.console.log()
    }

    fn faults(&self) -> u64 {
        self.console.faults()
    }

    fn call(&mut self, call: &HostCall, memory: Option<&Memory>) -> DeviceAnswer {
        self.console.call(call, memory)
    }
}

/// A console that counts its drops there, and whose call with this number fails.
fn new_dropping(
    alloc: Global,
    failing: u64,
    drops: &Rc<Cell<u64>>,
) -> Result<Dropping, AllocError> {
    let console = Console::new(alloc, vec![in alloc; failing]?);
    let drops = drops.clone()?;
    Ok(Dropping { console, drops })
}

/// Whether, behind a run that gets this, a console is in its set, can be released and attached
/// again, and is dropped with the set alone.
fn is_dropped_once(alloc: Global, failing: u64, wanted: (u8, &str)) -> Result<bool, AllocError> {
    let drops = Rc::new(alloc, Cell::new(0))?;
    let mut devices = DeviceSet::new(alloc);
    let console = new_dropping(alloc, failing, &drops)?;
    if devices.attach(Box::new(alloc, console)?).is_err()
        || !runs(alloc, &PRINTING, "f", &mut devices, wanted)
    {
        return Ok(false);
    }
    let Some(console) = devices.release("console") else {
        return Ok(false);
    };
    let is_released = devices.get("console").is_none();
    let is_new = matches!(devices.attach(console), Ok(None));
    let is_kept = devices.get("console").is_some() && drops.get() == 0;
    drop(devices);
    Ok(is_released && is_new && is_kept && drops.get() == 1)
}

const DONE: (u8, &str) = (0, "finished\nhost calls 2\n");

const STOPPED: (u8, &str) = (9, "host stopped: device \"console\"\n");

#[test]
fn a_device_is_dropped_once(rt: HostRuntime) {
    assert!(rt; is_dropped_once(rt.alloc(), 2, DONE) == Ok(true));
    assert!(rt; is_dropped_once(rt.alloc(), 1, STOPPED) == Ok(true));
}

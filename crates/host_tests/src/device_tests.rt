//! Each device through its trait.

use causes::NoMemory;
use host_devices::{Console, Counter, Device, DeviceAnswer};
use pm_text::{Items, Text};
use std::alloc::Global;
use wasm_syntax::{HostCall, ValType, Value};

/// A call of one argument.
fn call_of(
    alloc: Global,
    argument: u32,
    result_type: Option<ValType>,
) -> Result<HostCall, NoMemory> {
    Ok(HostCall {
        import: 0,
        name: Text::from_str(alloc, "next")?,
        args: Items::from_slice(alloc, &[Value::I32(argument)])?,
        result: result_type,
    })
}

/// The argument of a call, the type of its result, and the value that a device replies, or an error
/// where it does not.
type Row = (u32, Option<ValType>, Result<Option<Value>, &'static str>);

fn is_replied<D: Device>(device: &mut D, call: &HostCall, row: &Row) -> bool {
    match device.call(call, None) {
        DeviceAnswer::Replied(reply) => row.2 == Ok(reply.value),
        DeviceAnswer::Failed => row.2 == Err("failed"),
        DeviceAnswer::NoMemory => false,
    }
}

fn replies<D: Device>(alloc: Global, device: &mut D, row: &Row) -> bool {
    match call_of(alloc, row.0, row.1) {
        Ok(call) => is_replied(device, &call, row),
        Err(_) => false,
    }
}

/// Whether a device replies so, and tells its name, how many calls it has replied to, and how many
/// failed.
fn serves<D: Device>(
    alloc: Global,
    device: &mut D,
    rows: &[Row],
    told: (&str, usize, u64),
) -> bool {
    for row in rows {
        if !replies(alloc, device, row) {
            return false;
        }
    }
    device.name() == told.0 && device.log().len() == told.1 && device.faults() == told.2
}

const COUNTED: [Row; 3] = [
    (7, Some(ValType::I32), Ok(Some(Value::I32(0)))),
    (8, Some(ValType::I64), Ok(Some(Value::I64(1)))),
    (9, None, Ok(None)),
];

/// The second call is told to fail.
const PUT: [Row; 2] = [(1, None, Ok(None)), (1, None, Err("failed"))];

fn puts(alloc: Global, fails: Vec<u64>) -> bool {
    let mut console = Console::new(alloc, fails);
    serves(alloc, &mut console, &PUT, ("console", 1, 1))
}

fn is_put(alloc: Global) -> bool {
    match Vec::from_slice(alloc, &[1]) {
        Ok(fails) => puts(alloc, fails),
        Err(_) => false,
    }
}

fn is_counted(alloc: Global) -> bool {
    let mut counter = Counter::new(alloc);
    serves(alloc, &mut counter, &COUNTED, ("counter", 3, 0))
}

#[test]
fn devices_reply_and_fail(rt: HostRuntime) {
    assert!(rt; is_counted(rt.alloc()) && is_put(rt.alloc()));
}

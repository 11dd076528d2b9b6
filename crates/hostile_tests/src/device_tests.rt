//! A device that fails, and serves another run behind that.

ghost use Rattle.host_set.specs.Sets.{AreDistinct, names};

use crate::trial::{answers, files_of, status, words_of};
use causes::NoMemory;
use host_devices::Scripted;
use host_replies::{Replies, read_replies};
use host_set::{DeviceSet, Devices};
use pm_outside::{MemFiles, MemSink};
use pm_text::Text;
use std::alloc::Global;
use test_modules::READING;

const REPLIES: &str = "i32:9 16=01020304\ni32:7";

fn replies(alloc: Global) -> Result<Replies, NoMemory> {
    match read_replies(alloc, REPLIES.as_bytes()) {
        Ok(replies) => Ok(replies),
        Err(_) => Err(NoMemory),
    }
}

/// A device `env` with two replies, whose first call fails.
fn failing(alloc: Global) -> Result<Scripted, NoMemory> {
    let name = Text::from_str(alloc, "env")?;
    let fails = Vec::from_slice(alloc, &[0])?;
    Ok(Scripted::new(alloc, name, replies(alloc)?, fails))
}

/// Whether the module in `m` runs so, served by these devices.
fn runs(alloc: Global, files: &mut MemFiles, devices: &mut DeviceSet, wanted: (u8, &str)) -> bool
    requires { AreDistinct (names (⟦<DeviceSet as Devices>⟧.shown devices.old)) }
    ensures { AreDistinct (names (⟦<DeviceSet as Devices>⟧.shown devices.new)) }
{
    let Ok(words) = words_of(alloc, "run;m;f") else {
        return false;
    };
    let mut out = MemSink::new(alloc, Vec::new(alloc));
    status(alloc, &words, files, &mut out, devices) == wanted.0
        && out.bytes() == wanted.1.as_bytes()
}

const STOPPED: &str = "host stopped: device \"env\"\n";

const TRAPPED: &str = "trap 1 unreachable\nat function 1 offset 5\nhost calls 1\n";

/// Whether a run by the file of replies writes the same dump.
fn is_dump_of_script(alloc: Global, dump: Option<&[u8]>) -> bool {
    let Ok(mut files) = files_of(alloc, &READING, REPLIES) else {
        return false;
    };
    answers(alloc, "run;m;f;--replies;r", &mut files, (1, TRAPPED))
        && dump.is_some()
        && files.get("core.wasm") == dump
}

/// Whether a run is stopped without a dump, and the next one traps.
fn goes_on(alloc: Global, devices: &mut DeviceSet) -> bool
    requires { AreDistinct (names (⟦<DeviceSet as Devices>⟧.shown devices.old)) }
{
    match files_of(alloc, &READING, "") {
        Ok(mut files) => {
            runs(alloc, &mut files, devices, (9, STOPPED))
                && files.get("core.wasm").is_none()
                && runs(alloc, &mut files, devices, (1, TRAPPED))
                && is_dump_of_script(alloc, files.get("core.wasm"))
        }
        Err(_) => false,
    }
}

fn has_failed(alloc: Global) -> Result<bool, NoMemory> {
    let device = failing(alloc)?;
    let mut devices = DeviceSet::new(alloc);
    match devices.attach(Box::new(alloc, device)?) {
        Ok(_) => Ok(goes_on(alloc, &mut devices)),
        Err(_) => Ok(false),
    }
}

#[test]
fn a_device_that_failed_gives_its_first_reply(rt: HostRuntime) {
    assert!(rt; has_failed(rt.alloc()) == Ok(true));
}

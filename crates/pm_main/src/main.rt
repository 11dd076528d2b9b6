//! The program: the real files, output and devices under the top call.
#![tactic(auto)]

ghost use Rattle.host_set.specs.Sets.{AreDistinct, names};

use causes::NoMemory;
use host_devices::{Console, Counter};
use host_set::{DeviceSet, Devices};
use pm_cli::{Status, post_mortem};
use pm_outside::{HostFiles, HostOut};
use std::process::ExitCode;
use std::{env, io};

/// The program's words without its name. Arguments that are no text are outside the rules of words,
/// as no words are.
fn words(rt: &HostRuntime) -> Result<Vec<String>, NoMemory> {
    match env::args(rt) {
        Ok(args) => match args.skip(1).collect(rt.alloc()) {
            Ok(words) => Ok(words),
            Err(_) => Err(NoMemory),
        },
        Err(error) if error.kind() == io::ErrorKind::OutOfMemory => Err(NoMemory),
        Err(_) => Ok(Vec::new(rt.alloc())),
    }
}

/// The answer to the words, with the real files and the real output.
fn answer(rt: HostRuntime, words: &[String], devices: &mut DeviceSet) -> Status
    requires { AreDistinct (names (⟦<DeviceSet as Devices>⟧.shown devices.old)) }
{
    let alloc = rt.alloc();
    let mut out = HostOut::new(io::writer(&rt));
    let mut files = HostFiles::new(alloc, rt);
    post_mortem(alloc, words, &mut files, &mut out, devices)
}

/// The answer to the words, with the devices of the program.
fn with_devices(rt: HostRuntime, words: &[String]) -> Status {
    let alloc = rt.alloc();
    let mut devices = DeviceSet::new(alloc);
    let Ok(console) = Box::new(alloc, Console::new(alloc, Vec::new(alloc))) else {
        return Status::NoMemory;
    };
    if devices.attach(console).is_err() {
        return Status::NoMemory;
    }
    let Ok(counter) = Box::new(alloc, Counter::new(alloc)) else {
        return Status::NoMemory;
    };
    if devices.attach(counter).is_err() {
        return Status::NoMemory;
    }
    answer(rt, words, &mut devices)
}

fn main(rt: HostRuntime) -> ExitCode {
    let status = match words(&rt) {
        Ok(words) => with_devices(rt, &words),
        Err(_) => Status::NoMemory,
    };
    ExitCode::from(status.code())
}

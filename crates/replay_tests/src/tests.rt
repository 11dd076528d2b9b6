//! Steps by lines, which `step_tests` asks for. The rows of the line program are those that
//! llvm-dwarfdump 14 prints, and the steps of each line are the instructions between its row and
//! the next one.

ghost use Rattle.std.specs.Prelude.{true, false, [], None};
ghost use Rattle.wasm_machine.specs.calls.Instances.{IsNew};

use dwarf_line::{Lines, read_lines};
use host_devices::{HostAnswer, HostSide};
use line_coverage::Coverage;
use linear_memory::Memory;
use machine_steps::Tally;
use std::alloc::Global;
use wasm_machine::Instance;
use wasm_syntax::{FuncType, HostCall, Import, ModuleParts, Value};
use wasm_validate::Validated;

/// A function, exported as `f`, as a C compiler lays it out. Its last instruction but one is a load
/// from where its argument points.
pub const STRAIGHT: [u8; 92] = [
    0x00, 0x61, 0x73, 0x6d, 0x01, 0x00, 0x00, 0x00, 0x01, 0x06, 0x01, 0x60, 0x01, 0x7f, 0x01, 0x7f,
    0x03, 0x02, 0x01, 0x00, 0x05, 0x03, 0x01, 0x00, 0x01, 0x06, 0x07, 0x01, 0x7f, 0x01, 0x41, 0x80,
    0x08, 0x0b, 0x07, 0x05, 0x01, 0x01, 0x66, 0x00, 0x00, 0x0a, 0x31, 0x01, 0x2f, 0x01, 0x02, 0x7f,
    0x23, 0x00, 0x41, 0x20, 0x6b, 0x22, 0x02, 0x24, 0x00, 0x20, 0x02, 0x41, 0x07, 0x36, 0x02, 0x0c,
    0x20, 0x02, 0x41, 0x03, 0x36, 0x02, 0x10, 0x20, 0x02, 0x41, 0xc2, 0x00, 0x3a, 0x00, 0x15, 0x20,
    0x02, 0x20, 0x00, 0x36, 0x02, 0x08, 0x20, 0x00, 0x28, 0x02, 0x00, 0x0b,
];

/// Version 4. Lines 2, 3, 4 and 5 at 2, 14, 21 and 43, end 49.
const PROGRAM: [u8; 55] = [
    0x33, 0x00, 0x00, 0x00, 0x04, 0x00, 0x1b, 0x00, 0x00, 0x00, 0x01, 0x01, 0x01, 0xfb, 0x0e, 0x0d,
    0x00, 0x01, 0x01, 0x01, 0x01, 0x00, 0x00, 0x00, 0x01, 0x00, 0x00, 0x01, 0x00, 0x74, 0x2e, 0x63,
    0x00, 0x00, 0x00, 0x00, 0x00, 0x00, 0x05, 0x02, 0x02, 0x00, 0x00, 0x00, 0x13, 0xbb, 0x75, 0x02,
    0x16, 0x13, 0x02, 0x06, 0x00, 0x01, 0x01,
];

/// A host side that is never asked.
#[derive(Drop)]
struct Silent<'a> {
    imports: &'a [Import],
}

impl<'a> HostSide for Silent<'a> {
    ghost origin = { λ s. record {
      imports = s.imports.now;
      names = [];
      logs = λ _. [];
      script = None;
    } };

    ghost calls = { λ _. record { served = []; collected = [] } };

    ghost collecting = { λ _. false };

    ghost serving = { λ _ _ _. true };

    ghost used_up = { λ _ _. true };

    ghost fault_count = { λ _ _. 0 };

    fn serves(&self, _import: &Import, _ftype: &FuncType) -> bool {
        true
    }

    fn collects(&self) -> bool {
        false
    }

    fn call(&mut self, _import: &Import, _call: &HostCall, _memory: Option<&Memory>) -> HostAnswer {
        HostAnswer::NoReply
    }
}

/// A run, and its counts by lines.
pub struct Covered {
    /// Whether the line program is given.
    with_lines: bool,
    argument: u32,
    /// The lines of the first file and their counts, and no others.
    counts: &'static [(u32, u64)],
    /// How many steps fell on no line.
    unplaced: u64,
    steps: u64,
}

pub const TO_THE_END: Covered = Covered {
    with_lines: true,
    argument: 0,
    counts: &[(2, 5), (3, 3), (4, 9), (5, 3)],
    unplaced: 0,
    steps: 20,
};

pub const UP_TO_A_TRAP: Covered = Covered {
    with_lines: true,
    argument: 65536,
    counts: &[(2, 5), (3, 3), (4, 9), (5, 2)],
    unplaced: 0,
    steps: 19,
};

pub const WITHOUT_LINES: Covered = Covered {
    with_lines: false,
    argument: 0,
    counts: &[],
    unplaced: 20,
    steps: 20,
};

fn has_counts(coverage: &Coverage, row: &Covered) -> bool {
    let mut same = coverage.unplaced() == row.unplaced && coverage.steps() == row.steps;
    same = same && coverage.lines().len() == row.counts.len();
    for (line, count) in row.counts {
        same = same && coverage.count(0, 1, *line) == *count;
    }
    same
}

/// Invokes the function of a new instance with at most eight frames.
fn is_covered(
    alloc: Global,
    tables: &Vec<&Lines<'_>>,
    source: &ModuleParts,
    instance: &mut Instance<'_>,
    row: &Covered,
) -> bool
    requires { IsNew source.now instance.old }
{
    let mut hosts = Silent {
        imports: source.imports.as_slice(),
    };
    let args = [Value::I32(row.argument)];
    let Ok(mut tally) = Tally::new(alloc, source) else {
        return false;
    };
    match instance.invoke_watched("f", &args, 8, 1000, &mut hosts, &mut tally) {
        Ok(_) => match Coverage::of(alloc, tables, source, &tally) {
            Ok(coverage) => has_counts(&coverage, row),
            Err(_) => false,
        },
        Err(_) => false,
    }
}

fn covers_by(alloc: Global, tables: &Vec<&Lines<'_>>, source: &Validated, row: &Covered) -> bool {
    match Instance::new(alloc, source) {
        Ok(mut instance) => {
            is_covered(alloc, tables, source.module().parts(), &mut instance, row)
        }
        Err(_) => false,
    }
}

/// Whether the first invocation of a new instance has these counts.
pub fn covers(alloc: Global, source: &Validated, row: &Covered) -> bool {
    let Ok(lines) = read_lines(alloc, &PROGRAM, 0) else {
        return false;
    };
    let mut tables = Vec::new(alloc);
    if row.with_lines && tables.push(&lines).is_err() {
        return false;
    }
    covers_by(alloc, &tables, source, row)
}

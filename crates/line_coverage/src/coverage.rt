//! How many steps fell on each source line.

ghost use Rattle.std.specs.Prelude.{◌≡◌, map, IfOk};
ghost use Rattle.line_coverage.specs.calls.Spots.{steps_on};
ghost use Rattle.line_coverage.specs.Covers.{count_on, CoversCounted};

use crate::placing::{lines_of, place_visits};
use crate::spots::{LineCount, Spot};
use crate::sums::total_of;
use crate::visits::visits_of;
use causes::NoMemory;
use dwarf_line::Lines;
use machine_steps::Tally;
use std::alloc::Global;
use std::marker::Model;
use wasm_syntax::ModuleParts;

/// How many steps fell on each source line, and on none. A number stops at 2^64 - 1.
#[derive(Drop)]
pub struct Coverage {
    lines: Vec<LineCount>,
    unplaced: u64,
    steps: u64,
}

impl Model for Coverage {
    ghost use Rattle.line_coverage.specs.Covers as parts;

    ghost Value = { parts.Covered };

    ghost view = { λ c. record { lines = c.lines.items; unplaced = c.unplaced; steps = c.steps } };
}

/// The number of a line in a list.
fn steps_on(lines: &[LineCount], spot: Spot) -> u64
    ensures { result ≡ steps_on lines.now spot }
{
    for counted in lines {
        if counted.spot == spot {
            return counted.steps;
        }
    }
    0
}

impl Coverage {
    /// Where the steps fell that were counted of runs of the module `source`, by these line
    /// programs: a step falls on the line of the first one that has a row of its address.
    pub fn of(
        alloc: Global,
        tables: &Vec<&Lines<'_>>,
        source: &ModuleParts,
        tally: &Tally,
    ) -> Result<Self, NoMemory>
        ensures { IfOk result (CoversCounted (map (λ l. l.now) tables.now.items) source.now
            tally.now) }
    {
        let mut visits = visits_of(alloc, source, tally)?;
        let spots = place_visits(alloc, tables, &mut visits)?;
        let unplaced = total_of(&visits).saturating_add(tally.elsewhere());
        let steps = total_of(&spots).saturating_add(unplaced);
        let lines = lines_of(alloc, &spots)?;
        Ok(Coverage {
            lines,
            unplaced,
            steps,
        })
    }

    /// The lines on which steps fell, in the order of line programs, files and lines, each once.
    pub fn lines(&self) -> &[LineCount]
        ensures { result.now ≡ self.now.lines }
    {
        self.lines.as_slice()
    }

    /// How many steps fell on a line of a file of a line program, of which the first has the number
    /// 0. It looks through all lines.
    pub fn count(&self, table: usize, file: u32, line: u32) -> u64
        ensures { result
            ≡ count_on self.now (record { table = table; file = file; line = line }) }
    {
        steps_on(self.lines(), Spot { table, file, line })
    }

    /// How many steps fell on no line.
    pub fn unplaced(&self) -> u64
        ensures { result ≡ self.now.unplaced }
    {
        self.unplaced
    }

    /// How many steps were made.
    pub fn steps(&self) -> u64
        ensures { result ≡ self.now.steps }
    {
        self.steps
    }
}

//! Which of many ranges of addresses holds an address first, in logarithmic time.

ghost use Rattle.std.specs.Prelude.{◌≡◌, IfOk};
ghost use Rattle.dwarf_scopes.specs.calls.Steps as definitions;

use causes::NoMemory;
use std::alloc::Global;
use std::marker::Model;

/// A range of addresses, with a number. The end, which is not in it, may be a sum of addresses that
/// is none itself.
#[derive(Clone, Copy)]
pub struct Range {
    pub first: u32,
    pub end: i128,
    pub index: usize,
}

/// What is answered from an address on, up to the next step.
#[derive(Clone, Copy)]
struct Step {
    from: u32,
    index: Option<usize>,
}

/// The numbers of the ranges that hold addresses first. Contracts see the steps, which `answer`
/// reads.
#[derive(Drop)]
pub struct Steps {
    // The last one first.
    steps: Vec<Step>,
}

impl Model for Steps {
    ghost use Rattle.std.specs.Prelude.{List};
    ghost use Rattle.dwarf_scopes.specs.declared.steps.Step.{Step};
    ghost use Rattle.dwarf_scopes.specs.calls.Steps.{Descend};

    ghost Value = { List Step };

    ghost view = { λ s. s.steps.items };

    ghost invariant = { λ s. Descend s.steps.items };
}

/// The steps of one range.
fn steps_of_one(alloc: Global, range: Range) -> Result<Vec<Step>, NoMemory>
    ensures { IfOk result (λ steps. steps.items ≡ definitions.steps_of range) }
{
    let mut steps = Vec::new(alloc);
    if i128::from(range.first) < range.end {
        if let Ok(end) = u32::try_from(range.end) {
            steps.push(Step {
                from: end,
                index: None,
            })?;
        }
        steps.push(Step {
            from: range.first,
            index: Some(range.index),
        })?;
    }
    Ok(steps)
}

/// The steps of two tables. Where both have an answer, that of the left one counts.
fn merged(alloc: Global, left: &[Step], right: &[Step]) -> Result<Vec<Step>, NoMemory>
    ensures { IfOk result (λ steps. steps.items ≡ definitions.merged left.now right.now) }
{
    let mut steps = Vec::new(alloc);
    let mut i = 0;
    let mut j = 0;
    'both: while i < left.len() && j < right.len() {
        let first = left[i];
        let second = right[j];
        let index = first.index.or(second.index);
        if second.from <= first.from {
            steps.push(Step {
                from: first.from,
                index,
            })?;
            i += 1;
        } else {
            steps.push(Step {
                from: second.from,
                index,
            })?;
            j += 1;
        }
    }
    steps.extend_from_slice(&left[i..])?;
    steps.extend_from_slice(&right[j..])?;
    Ok(steps)
}

/// The steps of ranges, by halves.
fn steps_of(alloc: Global, ranges: &[Range]) -> Result<Vec<Step>, NoMemory>
    ensures { IfOk result (λ steps. definitions.AreSteps ranges.now steps.items) }
{
    match ranges {
        [] => Ok(Vec::new(alloc)),
        [range] => steps_of_one(alloc, *range),
        _ => {
            let (front, back) = ranges.split_at(ranges.len() / 2);
            let front = steps_of(alloc, front)?;
            let back = steps_of(alloc, back)?;
            merged(alloc, front.as_slice(), back.as_slice())
        }
    }
}

/// What the first step says that is not past an address, by halving.
fn answer(address: u32, steps: &[Step]) -> Option<usize>
    requires { definitions.Descend steps.now }
    ensures { result ≡ definitions.answer steps.now address }
{
    let passed = steps.partition_point(|step| address < step.from);
    steps.get(passed)?.index
}

impl Steps {
    /// Those of these ranges, in their order.
    pub fn of(alloc: Global, ranges: &[Range]) -> Result<Self, NoMemory>
        ensures { IfOk result (λ steps. definitions.Answer ranges.now steps) }
    {
        let steps = steps_of(alloc, ranges)?;
        Ok(Steps { steps })
    }

    /// The number of the first range that holds an address.
    pub fn at(&self, address: u32) -> Option<usize>
        ensures { result ≡ definitions.answer self.now address }
    {
        answer(address, self.steps.as_slice())
    }
}

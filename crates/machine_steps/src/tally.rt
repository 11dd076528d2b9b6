//! Counts of the steps of a run, by the instructions at which they are made.

ghost use Rattle.std.specs.Prelude.{◌≡◌, ◌-◌, ◌≤◌, ◌++◌, ◌∷◌, List, Option, [], length, replicate, map};
ghost use Rattle.std.specs.Prelude.{slice_index_or, nat_lt, true};
ghost use Rattle.std.specs.Prelude.{IfOk, OnOk};
ghost use Rattle.wasm_syntax.specs.declared.module.ModuleParts.{ModuleParts as Module};
ghost use Rattle.machine_steps.specs.Places.{Place, flat_place};
ghost use Rattle.machine_steps.specs.calls.Tallies.{Counted};
ghost use Rattle.machine_steps.specs.calls.Watches.{places_from};
ghost use Rattle.machine_steps.specs.inner.Cells.{more, cells_more, cells_run, counts_more, counts_run};

use crate::watch::{Position, Watch};
use causes::NoMemory;
use std::alloc::Global;
use std::marker::Model;
use wasm_syntax::{Body, ModuleParts};

/// How many steps were made at each instruction of a module, and how many at none. A count stops at
/// 2^64 - 1.
#[derive(Drop)]
pub struct Tally {
    // For each defined function, by the index of the instruction.
    cells: Vec<Vec<u64>>,
    elsewhere: u64,
}

impl Model for Tally {
    ghost use Rattle.std.specs.Prelude.{map};
    ghost use Rattle.machine_steps.specs.calls.Tallies as parts;

    ghost Value = { parts.Counts };

    ghost view = { λ t. record {
      cells = map (λ c. c.items) t.cells.items;
      elsewhere = t.elsewhere;
    } };
}

/// One more in a cell, where there is one.
#[inline(always)]
fn count_in(cells: &mut [u64], index: usize)
    ensures { cells.new ≡ cells_more cells.old index }
{
    if index < cells.len() {
        cells[index] = cells[index].saturating_add(1);
    }
}

/// One more in each cell from one on, up to another one.
#[inline(always)]
fn count_from(cells: &mut [u64], start: usize, end: usize)
    ensures { cells.new ≡ cells_run cells.old start (end - start) }
{
    let mut index = start;
    while index < end {
        count_in(cells, index);
        index += 1;
    }
}

fn zeros(alloc: Global, body: &Body) -> Result<Vec<u64>, NoMemory>
    ensures { IfOk result (λ cells. cells.items ≡ replicate (length body.now.ops) 0) }
{
    Ok(vec![in alloc; 0u64; body.ops.len()]?)
}

/// The cells of one function more, behind those of the functions before it.
fn push_zeros(alloc: Global, body: &Body, cells: &mut Vec<Vec<u64>>) -> Result<(), NoMemory>
    ensures { OnOk result (map (λ c. c.items) cells.new.items
        ≡ map (λ c. c.items) cells.old.items ++ replicate (length body.now.ops) 0 ∷ []) }
{
    let zeros = zeros(alloc, body)?;
    cells.push(zeros)?;
    Ok(())
}

impl Tally {
    /// No steps of runs of a module yet.
    pub fn new(alloc: Global, source: &ModuleParts) -> Result<Self, NoMemory>
        ensures { IfOk result (λ t. Counted source.now t []) }
    {
        let mut cells = Vec::new(alloc);
        for body in source.bodies.as_slice() {
            push_zeros(alloc, body, &mut cells)?;
        }
        Ok(Tally {
            cells,
            elsewhere: 0,
        })
    }

    /// The counts of a function, by its index among those that the module defines: one for each
    /// instruction, in their order. Empty where there is no such function.
    pub fn of_function(&self, function: usize) -> &[u64]
        ensures { result.now ≡ slice_index_or self.now.cells function [] }
    {
        match self.cells.get(function) {
            Some(cells) => cells.as_slice(),
            None => &[],
        }
    }

    /// How many steps were made while no frame stood.
    pub fn elsewhere(&self) -> u64
        ensures { result ≡ self.now.elsewhere }
    {
        self.elsewhere
    }

    /// Whether there is a count for an instruction.
    #[inline(always)]
    fn has(&self, at: Position) -> bool
        ensures { result ≡ nat_lt at.index (length (slice_index_or self.now.cells at.function [])) }
    {
        at.index < self.of_function(at.function).len()
    }

    /// One more at an instruction, where there is one.
    #[inline(always)]
    fn count_at(&mut self, at: Position)
        ensures { self.new ≡ record {
          cells = counts_more self.old.cells at.function at.index;
          elsewhere = self.old.elsewhere;
        } }
    {
        match self.cells.get_mut(at.function) {
            Some(cells) => count_in(cells.as_mut_slice(), at.index),
            None => {}
        }
    }

    /// One more at none.
    #[inline(always)]
    fn count_elsewhere(&mut self)
        ensures { self.new ≡ record {
          cells = self.old.cells;
          elsewhere = more self.old.elsewhere;
        } }
    {
        self.elsewhere = self.elsewhere.saturating_add(1);
    }

    /// One more at an instruction, or at none where there is no such instruction.
    #[inline(always)]
    fn count(&mut self, at: Position)
        ensures { (m : Module) (seen : List (Option Place)) → Counted m self.old seen
            → Counted m self.new (seen ++ flat_place m at.function at.index ∷ []) }
    {
        if self.has(at) {
            self.count_at(at);
        } else {
            self.count_elsewhere();
        }
    }

    /// Whether there are so many counts of a function.
    #[inline(always)]
    fn reaches(&self, function: usize, end: usize) -> bool
        ensures { result ≡ true → end ≤ length (slice_index_or self.now.cells function []) }
    {
        end <= self.of_function(function).len()
    }

    /// One more at each instruction of a function from one on, up to another one, where there are
    /// such instructions.
    #[inline(always)]
    fn count_cells(&mut self, function: usize, start: usize, end: usize)
        ensures { self.new ≡ record {
          cells = counts_run self.old.cells function start (end - start);
          elsewhere = self.old.elsewhere;
        } }
    {
        match self.cells.get_mut(function) {
            Some(cells) => count_from(cells.as_mut_slice(), start, end),
            None => {}
        }
    }

    /// The same, with those at none where there are no such instructions.
    #[inline(never)]
    fn count_each(&mut self, function: usize, start: usize, end: usize)
        ensures { (m : Module) (seen : List (Option Place)) → Counted m self.old seen
            → Counted m self.new (seen ++ places_from m function start (end - start)) }
    {
        let mut index = start;
        while index < end {
            self.count(Position { function, index });
            index += 1;
        }
    }
}

impl Watch for Tally {
    ghost Saw = { Counted };

    #[inline(always)]
    fn see(&mut self, at: Option<Position>) {
        match at {
            Some(position) => self.count(position),
            None => self.count_elsewhere(),
        }
    }

    // One test serves all steps of a run, which are at instructions but for what no run of a module
    // tells.
    #[inline(always)]
    fn see_run(&mut self, function: usize, start: usize, count: usize) {
        let end = start + count;
        if self.reaches(function, end) {
            self.count_cells(function, start, end);
        } else {
            self.count_each(function, start, end);
        }
    }
}

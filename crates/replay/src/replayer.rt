//! A replayer.

ghost use Rattle.std.specs.Prelude.{◌≡◌, ◌≤◌, Ok, Err, IfOk, OnErr, min};
ghost use Rattle.replay.specs.Replays.{IsEnd, EndsWith};
ghost use Rattle.replay.specs.Moves.{Starts, Went, Found, OfEach, Shows, near};

use crate::ahead::next_at;
use crate::fault::StartRefusal;
use crate::passing::pass;
use crate::point::Point;
use crate::recorded::Recorded;
use crate::track::Track;
use causes::NoMemory;
use machine_hosted::RunEnd;
use std::alloc::Global;
use std::marker::Model;
use std::mem;
use wasm_machine::Instance;

/// A run whose replies are there, from its first step to its last one, and the state behind one of
/// its steps.
///
/// It keeps at most 16 checkpoints. Where another one is due, one is dropped, from the first on, so
/// that the gap there is twice as wide as those behind it; and one more at the end, where gaps are
/// wide. So a move makes at most as many steps as two checkpoints are apart at first, or an eighth of
/// the run.
#[derive(Drop)]
pub struct Replayer<'a> {
    alloc: Global,
    recorded: Recorded<'a>,
    every: u64,
    end: u64,
    outcome: RunEnd,
    track: Track<'a>,
    step: u64,
    shown: Point<'a>,
}

impl<'a> Model for Replayer<'a> {
    ghost use Rattle.std.specs.Prelude.{length};
    ghost use Rattle.replay.specs.Moves.{Replay};
    ghost use Rattle.replay.specs.inner.Tracks.{Kept};

    ghost Value = { Replay };

    ghost view = { λ r. record {
      recording = r.recorded;
      every = r.every;
      end = r.end;
      outcome = r.outcome;
      checkpoints = length r.track.points.items;
      step = r.step;
      state = r.shown.instance;
    } };

    ghost invariant = { λ r. Kept r.recorded r.every r.end r.outcome r.track r.step r.shown };
}

impl<'a> Replayer<'a> {
    /// Runs the exported function on its arguments up to its end, within its depth and fuel. Then
    /// it stands at step 0. Checkpoints are `every` steps apart at first.
    ///
    /// # Errors
    ///
    /// The first cause for which the run does not start. `NoMemory` where memory runs out.
    pub fn new(
        alloc: Global,
        recorded: Recorded<'a>,
        every: u64,
    ) -> Result<Replayer<'a>, StartRefusal>
        requires { 1 ≤ every }
        ensures { Starts result recorded.entry every }
    {
        let mut passed = pass(alloc, &recorded, every)?;
        passed.track.settle();
        let shown = passed.track.point_at(alloc, &recorded, 0)?;
        Ok(Replayer {
            alloc,
            recorded,
            every,
            end: passed.end,
            outcome: passed.outcome,
            track: passed.track,
            step: 0,
            shown,
        })
    }

    /// Goes to a step, or to the last one where there are not so many, and answers which one that
    /// is.
    ///
    /// # Errors
    ///
    /// `NoMemory` where memory runs out; nothing is changed then.
    pub fn goto(&mut self, step: u64) -> Result<u64, NoMemory>
        ensures step { IfOk result (λ n. n ≡ min step self.old.end) }
        ensures went { IfOk result (Went self.old self.new) }
        ensures unchanged { OnErr result (self.new ≡ self.old) }
    {
        let step = step.min(self.end);
        let shown = self
            .track
            .point_from(self.alloc, &self.recorded, &self.shown, self.step, step)?;
        drop(mem::replace(&mut self.shown, shown));
        self.step = step;
        Ok(step)
    }

    /// Goes to the next step behind the one that is shown at which the innermost frame is of this
    /// function, at this code offset, or stays where there is none. It answers whether there is
    /// one.
    ///
    /// # Errors
    ///
    /// `NoMemory` where memory runs out; nothing is changed then.
    pub fn until(&mut self, function: u32, offset: u32) -> Result<bool, NoMemory>
        ensures found { IfOk result (λ found. Found found self.old function offset self.new) }
        ensures unchanged { OnErr result (self.new ≡ self.old) }
    {
        let next = next_at(
            self.alloc,
            &self.recorded,
            &self.shown,
            self.step,
            self.end,
            function,
            offset,
        )?;
        match next {
            Some(step) => {
                self.goto(step)?;
                Ok(true)
            }
            None => Ok(false),
        }
    }

    /// The step that is shown.
    pub fn step(&self) -> u64
        ensures step { result ≡ self.now.step }
        ensures within { result ≤ self.now.end }
    {
        self.step
    }

    /// The last step: the first one behind which the run does not go on, or as many as may be made.
    pub fn end(&self) -> u64
        ensures end { result ≡ self.now.end }
        ensures is_end { OfEach self.now.recording (λ p. IsEnd p self.now.recording result) }
    {
        self.end
    }

    /// How many checkpoints are kept.
    pub fn checkpoints(&self) -> u64
        ensures count { result ≡ self.now.checkpoints }
        ensures few { result ≤ 16 }
    {
        self.track.points.len() as u64
    }

    /// The state behind the step that is shown.
    pub fn state(&self) -> &Instance<'a>
        ensures state { result.now ≡ self.now.state }
        ensures shows { OfEach self.now.recording
            (λ p. Shows p self.now.recording self.now.step result.now) }
        ensures near { result.now.since_copy ≤ near self.now }
    {
        &self.shown.instance
    }

    /// How the run ended at its last step, or `FuelSpent` where it goes on there.
    pub fn outcome(&self) -> &RunEnd
        ensures outcome { result.now ≡ self.now.outcome }
        ensures is_outcome { OfEach self.now.recording
            (λ p. EndsWith p self.now.recording self.now.end result.now) }
    {
        &self.outcome
    }
}

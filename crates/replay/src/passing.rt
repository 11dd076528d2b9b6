//! The first pass over a run.

ghost use Rattle.std.specs.Prelude.{◌≡◌, ◌≢◌, ◌≤◌, true, false};
ghost use Rattle.replay.specs.inner.Tracks.{Passes, WaitsAt};

use crate::fault::StartRefusal;
use crate::point::Point;
use crate::recorded::Recorded;
use crate::track::Track;
use machine_hosted::RunEnd;
use std::alloc::Global;

/// A run up to its end: the last step, how it ended there, and checkpoints on the way.
#[derive(Drop)]
pub(crate) struct Passed<'a> {
    pub(crate) end: u64,
    pub(crate) outcome: RunEnd,
    pub(crate) track: Track<'a>,
}

/// Whether the steps are used up.
fn is_spent(answer: &RunEnd) -> bool
    ensures spent { result ≡ true → answer.now ≡ RunEnd.FuelSpent }
    ensures ended { result ≡ false → answer.now ≢ RunEnd.FuelSpent }
{
    match answer {
        RunEnd::FuelSpent => true,
        _ => false,
    }
}

/// Runs from the first state up to the end. A checkpoint is kept in front of each piece of so many
/// steps.
fn to_end<'a>(
    alloc: Global,
    recorded: &Recorded<'a>,
    point: &mut Point<'a>,
    every: u64,
) -> Result<Passed<'a>, StartRefusal>
    requires every { 1 ≤ every }
    requires waits { WaitsAt recorded.now 0 point.old }
    ensures { Passes result recorded.now every }
{
    let mut track = Track {
        spacing: every,
        wide: 0,
        points: Vec::new(alloc),
    };
    let mut made = 0;
    'pieces: loop {
        track.keep(point)?;
        let piece = track.spacing.min(recorded.fuel() - made);
        let outcome = point.advance(alloc, recorded, piece)?;
        if !is_spent(&outcome) {
            let end = point.instance.steps();
            return Ok(Passed {
                end,
                outcome,
                track,
            });
        }
        made += piece;
        if made == recorded.fuel() {
            return Ok(Passed {
                end: made,
                outcome,
                track,
            });
        }
    }
}

/// Runs up to the end.
pub(crate) fn pass<'a>(
    alloc: Global,
    recorded: &Recorded<'a>,
    every: u64,
) -> Result<Passed<'a>, StartRefusal>
    requires { 1 ≤ every }
    ensures { Passes result recorded.now every }
{
    let mut point = Point::first(alloc, recorded)?;
    let passed = to_end(alloc, recorded, &mut point, every);
    drop(point);
    passed
}

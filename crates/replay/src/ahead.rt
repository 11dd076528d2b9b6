//! What is ahead of a point.

ghost use Rattle.std.specs.Prelude.{◌≤◌, IfOk, IfSome};
ghost use Rattle.machine_hosted.specs.declared.answer.RunEnd.{RunEnd as Answer};
ghost use Rattle.replay.specs.Replays.{IsEnd};
ghost use Rattle.replay.specs.Moves.{OfEach};
ghost use Rattle.replay.specs.inner.Tracks.{NextIn, ReachedAt};

use crate::point::Point;
use crate::recorded::Recorded;
use causes::NoMemory;
use std::alloc::Global;

/// The least step behind a first one, up to the run's last one, at which the innermost frame is of
/// this function, at this code offset. The point stands at the first one, and goes on from there.
fn looked_ahead<'a>(
    alloc: Global,
    recorded: &Recorded<'a>,
    ahead: &mut Point<'a>,
    from: u64,
    end: u64,
    function: u32,
    offset: u32,
) -> Result<Option<u64>, NoMemory>
    requires stands { (answer : Answer) × ReachedAt recorded.now from answer ahead.old }
    requires end { OfEach recorded.now (λ p. IsEnd p recorded.now end) }
    requires within { from ≤ end }
    ensures next { IfOk result (NextIn recorded.now function offset from end) }
    ensures bound { IfOk result (λ next. IfSome next (λ step. step ≤ end)) }
{
    let mut step = from;
    'steps: while step < end {
        let _answer = ahead.advance(alloc, recorded, 1)?;
        step += 1;
        if ahead.is_in(function, offset) {
            return Ok(Some(step));
        }
    }
    Ok(None)
}

/// The same from the point that is shown, which stays where it is.
pub(crate) fn next_at<'a>(
    alloc: Global,
    recorded: &Recorded<'a>,
    shown: &Point<'a>,
    from: u64,
    end: u64,
    function: u32,
    offset: u32,
) -> Result<Option<u64>, NoMemory>
    requires stands { (answer : Answer) × ReachedAt recorded.now from answer shown.now }
    requires end { OfEach recorded.now (λ p. IsEnd p recorded.now end) }
    requires within { from ≤ end }
    ensures next { IfOk result (NextIn recorded.now function offset from end) }
    ensures bound { IfOk result (λ next. IfSome next (λ step. step ≤ end)) }
{
    let mut ahead = shown.copy()?;
    let next = looked_ahead(alloc, recorded, &mut ahead, from, end, function, offset);
    drop(ahead);
    next
}

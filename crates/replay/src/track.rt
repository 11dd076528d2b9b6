//! The checkpoints of a run.

ghost use Rattle.std.specs.Prelude.{◌≡◌, ◌+◌, ◌*◌, ◌<◌, ◌≤◌, ◌^◌, ℕ, ◌∷◌, [], ◌++◌, true, Some, IfOk, OnOk, length};
ghost use Rattle.std.specs.Prelude.{slice_get};
ghost use Rattle.std.specs.List.{remove};
ghost use Rattle.machine_hosted.specs.declared.answer.RunEnd.{RunEnd as Answer};
ghost use Rattle.replay.specs.Replays.{Recording, IsEnd};
ghost use Rattle.replay.specs.Moves.{OfEach};
ghost use Rattle.replay.specs.inner.Tracks.{WaitsAt, ReachedAt, DueIn, FreshIn, CoversIn};
ghost use Rattle.replay.specs.inner.Tracks.{place, widest, Nearest};

use crate::point::Point;
use crate::recorded::Recorded;
use causes::NoMemory;
use std::alloc::Global;

/// The most checkpoints that are kept.
const MOST: usize = 16;

/// Copies of an instance, the first one at step 0. So many of the first gaps between them are two
/// spacings wide, and all others one.
#[derive(Drop)]
pub(crate) struct Track<'a> {
    pub(crate) spacing: u64,
    pub(crate) wide: usize,
    pub(crate) points: Vec<Point<'a>>,
}

fn add<'a>(points: &mut Vec<Point<'a>>, point: Point<'a>) -> Result<(), NoMemory>
    ensures { OnOk result (points.new.items ≡ points.old.items ++ point.entry ∷ []) }
{
    match points.push(point) {
        Ok(()) => Ok(()),
        Err(failed) => {
            drop(failed);
            Err(NoMemory)
        }
    }
}

fn take_out<'a>(points: &mut Vec<Point<'a>>, index: usize)
    requires { index < length points.old.items }
    ensures { points.new.items ≡ remove points.old.items index }
{
    drop(points.remove(index));
}

/// The point of an index, which is there.
fn point_of<'s, 'a>(points: &'s [Point<'a>], index: usize) -> &'s Point<'a>
    requires { index < length points.now }
    ensures { slice_get points.now index ≡ Some result.now }
{
    &points[index]
}

/// The last one that stands up to so many spacings, by its index.
fn index_within(spacings: u64, wide: u64) -> u64
    ensures below { place wide result ≤ spacings }
    ensures last { spacings < place wide (result + 1) }
{
    let half = spacings / 2;
    if half < wide { half } else { spacings - wide }
}

/// Whether the shown step is before a step, and a checkpoint not behind it.
fn is_between(kept: u64, shown: u64, step: u64) -> bool
    ensures behind { result ≡ true → kept ≤ shown }
    ensures before { result ≡ true → shown < step }
{
    kept <= shown && shown < step
}

impl<'a> Track<'a> {
    /// Drops the one between the first two narrow gaps, which become a wide one.
    fn join(&mut self)
        requires { self.old.wide + 1 < length self.old.points.items }
        ensures spacing { self.new.spacing ≡ self.old.spacing }
        ensures wide { self.new.wide ≡ self.old.wide + 1 }
        ensures points { self.new.points.items ≡ remove self.old.points.items self.new.wide }
    {
        let wide = self.wide + 1;
        take_out(&mut self.points, wide);
        self.wide = wide;
    }

    /// Drops one, where there are as many as are kept. Where no gap is narrow any more, that is the
    /// new spacing.
    fn thin(&mut self)
        requires some_narrow { self.old.wide < 15 }
        requires fits { place self.old.wide (length self.old.points.items) * self.old.spacing
            < 2 ^ 64 }
        ensures { (x : Recording) (every here : ℕ) → DueIn x every here self.old
            → DueIn x every here self.new × (length self.new.points.items < 16) }
    {
        if self.points.len() < MOST {
            return;
        }
        self.join();
        if self.wide == MOST - 1 {
            self.wide = 0;
            self.spacing *= 2;
        }
    }

    /// Drops one more at the end of a run, behind which none is added, where there are wide gaps:
    /// so moves hold no more states at once than the first pass.
    pub(crate) fn settle(&mut self)
        ensures { (x : Recording) (every end : ℕ) → CoversIn x every end self.old
            → CoversIn x every end self.new }
    {
        if 0 < self.wide && self.wide < MOST - 1 && self.points.len() == MOST {
            self.join();
        }
    }

    /// Adds a checkpoint, where one is due. Where there are as many as are kept, one is dropped
    /// before.
    pub(crate) fn keep(&mut self, point: &Point<'a>) -> Result<(), NoMemory>
        requires some_narrow { self.old.wide < 15 }
        requires fits { place self.old.wide (length self.old.points.items) * self.old.spacing
            < 2 ^ 64 }
        ensures { (x : Recording) (every here : ℕ) → DueIn x every here self.old
            → WaitsAt x here point.now → OnOk result (FreshIn x every here self.new) }
    {
        self.thin();
        let copy = point.copy()?;
        add(&mut self.points, copy)
    }

    /// The last checkpoint up to a step, by its index.
    fn index(&self, step: u64) -> usize
        requires some { 1 ≤ length self.now.points.items }
        requires apart { 1 ≤ self.now.spacing }
        ensures inside { result < length self.now.points.items }
        ensures below { place self.now.wide result * self.now.spacing ≤ step }
        ensures near { step ≤ place self.now.wide (length self.now.points.items) * self.now.spacing
            → step ≤ place self.now.wide result * self.now.spacing
            + widest self.now.spacing self.now.wide }
    {
        let last = self.points.len() - 1;
        let index = index_within(step / self.spacing, self.wide as u64);
        if index < last as u64 {
            index as usize
        } else {
            last
        }
    }

    /// The last checkpoint up to a step.
    fn before(&self, step: u64) -> &Point<'a>
        requires some { 1 ≤ length self.now.points.items }
        requires apart { 1 ≤ self.now.spacing }
        ensures { (x : Recording) (every end : ℕ) → CoversIn x every end self.now
            → Nearest x end step (widest self.now.spacing self.now.wide) result.now }
    {
        let index = self.index(step);
        point_of(&self.points, index)
    }

    /// The point behind so many steps, up to the end of the run.
    pub(crate) fn point_at(
        &self,
        alloc: Global,
        recorded: &Recorded<'a>,
        step: u64,
    ) -> Result<Point<'a>, NoMemory>
        requires { (every : ℕ) × (end : ℕ) × CoversIn recorded.now every end self.now
            × (step ≤ end) }
        ensures reached { IfOk result
            (λ q. (answer : Answer) × ReachedAt recorded.now step answer q) }
        ensures near { IfOk result
            (λ q. q.instance.since_copy ≤ widest self.now.spacing self.now.wide) }
    {
        let kept = self.before(step);
        kept.copy_at(alloc, recorded, step)
    }

    /// The same, where the point behind another step is shown. It is gone on from there, where no
    /// checkpoint is nearer.
    pub(crate) fn point_from(
        &self,
        alloc: Global,
        recorded: &Recorded<'a>,
        shown: &Point<'a>,
        from: u64,
        step: u64,
    ) -> Result<Point<'a>, NoMemory>
        requires covers { (every : ℕ) × (end : ℕ) × CoversIn recorded.now every end self.now
            × (step ≤ end) × OfEach recorded.now (λ p. IsEnd p recorded.now end) }
        requires stands { (answer : Answer) × ReachedAt recorded.now from answer shown.now }
        ensures reached { IfOk result
            (λ q. (answer : Answer) × ReachedAt recorded.now step answer q) }
        ensures near { IfOk result
            (λ q. q.instance.since_copy ≤ widest self.now.spacing self.now.wide) }
    {
        let kept = self.before(step);
        let made = kept.instance.steps();
        if is_between(made, from, step) {
            return shown.copy_at(alloc, recorded, step);
        }
        self.point_at(alloc, recorded, step)
    }
}

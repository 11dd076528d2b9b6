//! Steps one behind another.

ghost use Rattle.std.specs.Prelude.{◌≡◌, true, IfOk, OnOk};
ghost use Rattle.var_eval.specs.Steps as definitions;
ghost use Rattle.var_eval.specs.inner.Named as named;
ghost use Rattle.var_eval.specs.inner.Told.{Tells};

use crate::dead_end::DeadEnd;
use crate::elements::element_step;
use crate::members::member_step;
use crate::named::{KnownMembers, no_members};
use crate::part::Part;
use crate::pointers::pointer_step;
use causes::NoMemory;
use dwarf_expr::FrameView;
use dwarf_types::{Typed, TypedUnits};
use std::alloc::Global;
use var_path::Step;
use var_values::{Mark, Source};

/// Whether it is known behind a step that the entry of the part's type is the one at its offset, where
/// that was known before it or not.
fn owns(own: bool, step: &Step<'_>) -> bool
    ensures { result ≡ named.owns own step.now }
{
    match step {
        Step::Index(_) => own,
        Step::Member(_) | Step::Arrow(_) | Step::Deref => true,
    }
}

/// One step.
#[tactic(auto, using(crate::proofs::Stops::stopped, crate::proofs::OwnLaws::own_pointer), unfolding(crate::specs::Steps::step))]
fn take_step<'r, 'k, 'a>(
    alloc: Global,
    units: &TypedUnits<'r, 'k, 'a>,
    view: &FrameView<'_>,
    known: &mut KnownMembers<'r, 'a>,
    own: bool,
    part: Part<'r, 'k, 'a>,
    step: &Step<'_>,
) -> Result<Part<'r, 'k, 'a>, DeadEnd>
    requires own { own ≡ true → named.IsOwn units.now part.type }
    requires known { named.AreKnown units.now known.old }
    ensures told { Tells result
        (definitions.step units.now view.now.memory part.entry step.now) }
    ensures known { OnOk result (named.AreKnown units.now known.new) }
{
    match step {
        Step::Member(name) => { member_step(alloc, units, view, known, own, name.as_slice(), part) }
        Step::Arrow(name) => {
            match pointer_step(units, view, part) {
                Ok(to) => member_step(alloc, units, view, known, true, name.as_slice(), to),
                Err(end) => Err(end),
            }
        }
        Step::Index(index) => element_step(units, view, *index, part),
        Step::Deref => pointer_step(units, view, part),
    }
}

#[tactic(auto, using(crate::proofs::Walks::goes_on, crate::proofs::Walks::stops, crate::proofs::Walks::ends, crate::proofs::OwnLaws::own_behind_step))]
fn take_steps<'r, 'k, 'a>(
    alloc: Global,
    units: &TypedUnits<'r, 'k, 'a>,
    view: &FrameView<'_>,
    known: &mut KnownMembers<'r, 'a>,
    steps: &[Step<'_>],
    whole: Part<'r, 'k, 'a>,
) -> Result<Part<'r, 'k, 'a>, DeadEnd>
    requires { named.AreKnown units.now known.old }
    ensures { Tells result (definitions.walk units.now view.now.memory steps.now whole.entry) }
{
    let mut own = false;
    let mut part = whole;
    for step in steps {
        part = match take_step(alloc, units, view, known, own, part, step) {
            Ok(part) => part,
            Err(end) => return Err(end),
        };
        own = owns(own, step);
    }
    Ok(part)
}

/// The part that is behind all steps, from a variable of this type that comes from this source; or
/// the mark of the first step that does not fit.
///
/// # Errors
///
/// Want of memory also where an offset in a source passes 2^118 bytes, which takes millions of
/// steps.
pub fn walk<'r, 'k, 'a>(
    alloc: Global,
    units: &TypedUnits<'r, 'k, 'a>,
    view: &FrameView<'_>,
    steps: &[Step<'_>],
    typed: Typed<'r, 'k, 'a>,
    source: Source,
) -> Result<Result<Part<'r, 'k, 'a>, Mark>, NoMemory>
    ensures { IfOk result (λ part. part
        ≡ definitions.walk units.now view.now.memory steps.now
        (definitions.whole typed.entry source)) }
{
    let mut known = no_members(alloc);
    let whole = Part::whole(typed, source);
    let reached = take_steps(alloc, units, view, &mut known, steps, whole);
    drop(known);
    match reached {
        Ok(part) => Ok(Ok(part)),
        Err(DeadEnd::Marked(mark)) => Ok(Err(mark)),
        Err(DeadEnd::TooFar | DeadEnd::NoMemory) => Err(NoMemory),
    }
}

//! Steps along pointers and references (DWARF 4 section 5.2).

ghost use Rattle.std.specs.Prelude.{◌≡◌, ◌<◌, ◌^◌, IfOk};
ghost use Rattle.var_values.specs.Bytes.{number_at as the_number};
ghost use Rattle.var_eval.specs.Steps as steps;
ghost use Rattle.var_eval.specs.inner.Told.{Tells};

use crate::dead_end::DeadEnd;
use crate::meeting::meet;
use crate::part::Part;
use crate::sourced_place::SourcedPlace;
use dwarf_expr::{FrameView, PiecePlace};
use dwarf_types::{Class, TypedUnits, class_of, type_of};
use var_values::{Mark, Source, number_at};

/// Where an address leads that was read.
fn at_address(past: bool, address: Result<u128, Mark>) -> Source
    requires { IfOk address (λ a. a < 2 ^ 32) }
    ensures { result ≡ steps.at_address past address }
{
    match address {
        Ok(address) => {
            if past {
                Source::Lost(Mark::OutsideArray)
            } else {
                Source::Single(PiecePlace::Address(address as u32))
            }
        }
        Err(mark) => Source::Lost(mark),
    }
}

/// Where the pointer leads that stands there.
#[tactic(auto, unfolding(crate::specs::Steps::pointed))]
pub fn pointed(view: &FrameView<'_>, spot: &SourcedPlace, past: bool) -> Source
    ensures { result ≡ steps.pointed view.now.memory spot.now past }
{
    let place = spot.place();
    let address = number_at(view, place.source, place.offset, 4);
    at_address(past, address)
}

/// What a pointer or a reference leads to.
#[tactic(auto, using(crate::proofs::Stops::stopped), unfolding(crate::specs::Steps::pointer_step))]
pub fn pointer_step<'r, 'k, 'a>(
    units: &TypedUnits<'r, 'k, 'a>,
    view: &FrameView<'_>,
    part: Part<'r, 'k, 'a>,
) -> Result<Part<'r, 'k, 'a>, DeadEnd>
    ensures { Tells result (steps.pointer_step units.now view.now.memory part.entry) }
{
    let Part { typed, spot, past } = part;
    let met = match meet(units, typed, spot.place().bits) {
        Ok(met) => met,
        Err(end) => return Err(end),
    };
    match class_of(met.standing.entry().tag) {
        Class::Pointing => {
            let to = type_of(units, &met.standing.entry().attributes);
            Ok(Part::whole(to, pointed(view, &spot, past)))
        }
        _ => Err(DeadEnd::Marked(Mark::UnsupportedType)),
    }
}

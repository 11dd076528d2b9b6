//! What a list of opcodes does to the bounds of a program, whatever stands in front of it. It is
//! put together from the last opcode to the first.

ghost use Rattle.std.specs.Prelude.{◌≡◌, Some, option_map};
ghost use Rattle.dwarf_line.specs.inner.Outlines as definitions;
ghost use Rattle.dwarf_line.specs.inner.Scans.{with_front_if};

use crate::effects::{AddressChange, Effect, address_by, both_changes};
use crate::hull::{Hull, held_by, no_hull, widened};

/// The sequences behind the first end of a sequence do not depend on what stands in front.
#[derive(Clone, Copy)]
pub struct Outline {
    /// The address of the first row in front of the first end of a sequence.
    pub first: Option<AddressChange>,
    /// The address at the first end of a sequence.
    pub close: Option<AddressChange>,
    /// The bounds of the sequences behind it.
    pub behind: Hull,
}

/// Of no opcode.
pub(crate) fn no_outline() -> Outline
    ensures { result ≡ definitions.no_outline }
{
    Outline {
        first: None,
        close: None,
        behind: no_hull(),
    }
}

fn first_address(change: Option<AddressChange>) -> Option<u32>
    ensures { result ≡ option_map (λ c. definitions.address_by c 0) change }
{
    match change {
        Some(change) => Some(address_by(change, 0)),
        None => None,
    }
}

/// The bounds of what such opcodes make behind no rows, at the address 0.
pub(crate) fn start_hull(outline: &Outline) -> Hull
    ensures { result ≡ definitions.start_hull outline.now }
{
    match outline.close {
        Some(close) => {
            let held = held_by(first_address(outline.first), address_by(close, 0));
            widened(outline.behind, held)
        }
        None => no_hull(),
    }
}

fn changed(first: AddressChange, second: Option<AddressChange>) -> Option<AddressChange>
    ensures { result ≡ option_map (definitions.both_changes first) second }
{
    match second {
        Some(second) => Some(both_changes(first, second)),
        None => None,
    }
}

fn with_front(effect: Effect, outline: &Outline) -> Outline
    ensures { result ≡ definitions.with_front effect outline.now }
{
    match effect {
        Effect::Changes(change) => Outline {
            first: changed(change, outline.first),
            close: changed(change, outline.close),
            behind: outline.behind,
        },
        Effect::AddsRow(change) => Outline {
            first: Some(change),
            close: changed(change, outline.close),
            behind: outline.behind,
        },
        Effect::Ends => Outline {
            first: None,
            close: Some(AddressChange::Kept),
            behind: start_hull(outline),
        },
    }
}

/// With an opcode in front, where the others can be read.
pub(crate) fn with_front_if(effect: Effect, outline: Option<Outline>) -> Option<Outline>
    ensures { result ≡ with_front_if effect outline }
{
    match outline {
        Some(outline) => Some(with_front(effect, &outline)),
        None => None,
    }
}

/// The bounds of what opcodes make behind a header, where they can be read.
pub(crate) fn bounds_of(outline: Option<Outline>) -> Option<Hull>
    ensures { result ≡ option_map definitions.start_hull outline }
{
    match outline {
        Some(outline) => Some(start_hull(&outline)),
        None => None,
    }
}

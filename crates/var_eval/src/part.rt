//! Parts of variables.

ghost use Rattle.std.specs.Prelude.{◌≡◌};
ghost use Rattle.var_values.specs.calls.Near.{IsNear};
ghost use Rattle.var_eval.specs.Steps as steps;

use crate::sourced_place::SourcedPlace;
use dwarf_types::Typed;
use std::marker::Model;
use var_values::{Place, Source};

/// A part of a variable, or of what it points to.
#[derive(Drop)]
pub struct Part<'r, 'k, 'a> {
    pub(crate) typed: Typed<'r, 'k, 'a>,
    pub(crate) spot: SourcedPlace,
    /// It stands behind the end of an array whose count is known.
    pub(crate) past: bool,
}

impl<'r, 'k, 'a> Model for Part<'r, 'k, 'a> {
    ghost use Rattle.var_eval.specs.Steps.{Part};

    ghost Value = { Part };

    ghost view = { λ p. record { type = p.typed; place = p.spot; past = p.past } };
}

impl<'r, 'k, 'a> Part<'r, 'k, 'a> {
    /// The whole of what comes from a source.
    pub fn whole(typed: Typed<'r, 'k, 'a>, source: Source) -> Self
        ensures { result ≡ steps.whole typed.entry source }
    {
        Part {
            typed,
            spot: SourcedPlace::start_of(source),
            past: false,
        }
    }

    /// Its type.
    pub fn typed(&self) -> &Typed<'r, 'k, 'a>
        ensures { result.now ≡ self.now.type }
    {
        &self.typed
    }

    /// Where it stands.
    pub fn place(&self) -> Place<'_>
        ensures same { result ≡ self.now.place }
        ensures near { IsNear 16 (result.offset) }
    {
        self.spot.place()
    }

    /// Whether it stands behind the end of an array whose count is known.
    pub fn is_past(&self) -> bool
        ensures { result ≡ self.now.past }
    {
        self.past
    }
}

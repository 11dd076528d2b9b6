//! Where a value comes from.

ghost use Rattle.std.specs.Prelude.{◌≡◌};
ghost use Rattle.var_values.specs.Places as places;

use crate::mark::Mark;
use dwarf_entries::names::CONST_VALUE;
use dwarf_entries::number;
use dwarf_expr::{PieceList, PiecePlace};
use dwarf_info::Attributes;

/// Where a value comes from (DWARF 4 section 2.6).
#[derive(Drop)]
pub enum Source {
    /// It is nowhere, for this reason.
    Lost(Mark),
    Single(PiecePlace),
    /// Pieces stand one behind another, the lowest bytes first.
    Pieces(PieceList),
}

/// What is no more than its constant, modulo 2^64.
pub fn constant_source(attributes: &Attributes<'_>) -> Source
    ensures { result ≡ places.constant_source attributes.now }
{
    match number(attributes, CONST_VALUE) {
        Some(constant) => {
            let word = constant.rem_euclid(0x1_0000_0000_0000_0000);
            Source::Single(PiecePlace::Value(word as u64))
        }
        None => Source::Lost(Mark::OptimisedOut),
    }
}

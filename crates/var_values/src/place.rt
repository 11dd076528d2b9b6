//! Where values stand.

use crate::Source;
use crate::bits::Bits;
use std::marker::Model;

/// Where a value stands.
#[derive(Drop)]
pub struct Place<'s> {
    pub source: &'s Source,
    /// In bytes, from the start of the source on.
    pub offset: i128,
    /// All bits of the value where it is None.
    pub bits: Option<Bits>,
}

impl<'s> Model for Place<'s> {
    ghost use Rattle.var_values.specs.Places.{Place};

    ghost Value = { Place };

    ghost view = { λ p. record { source = p.source.now; offset = p.offset; bits = p.bits } };
}

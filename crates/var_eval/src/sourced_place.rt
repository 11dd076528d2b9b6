//! Where parts of variables stand.

ghost use Rattle.std.specs.Prelude.{◌≡◌, ◌<◌, ◌^◌, pos, IfOk, IfErr};
ghost use Rattle.var_eval.specs.declared.dead_end.DeadEnd.TheVariants.{TooFar};
ghost use Rattle.var_values.specs.calls.Near.{IsNear};
ghost use Rattle.var_values.specs.Places as places;

use crate::dead_end::DeadEnd;
use std::marker::Model;
use var_values::{Bits, Place, Source};

/// Where a part of a variable stands: a `Place` with its source.
#[derive(Drop)]
pub struct SourcedPlace {
    source: Source,
    offset: i128,
    bits: Option<Bits>,
}

impl Model for SourcedPlace {
    ghost use Rattle.var_values.specs.calls.Near.{IsNear};
    ghost use Rattle.var_values.specs.Places.{Place};

    ghost Value = { Place };

    ghost view = { λ s. record { source = s.source; offset = s.offset; bits = s.bits } };

    ghost invariant = { λ s. IsNear 16 s.offset };
}

/// The greatest offset, and the least one below 0, of a value whose parts have offsets of 128 bits.
const FARTHEST: i128 = (1 << 119) - (1 << 70);

impl SourcedPlace {
    /// Where a source begins.
    pub fn start_of(source: Source) -> Self
        ensures { result ≡ places.start_of source }
    {
        SourcedPlace {
            source,
            offset: 0,
            bits: None,
        }
    }

    /// Another place in the same source.
    pub fn moved(self, offset: i128, bits: Option<Bits>) -> Result<Self, DeadEnd>
        ensures there { IfOk result (λ s.
            s ≡ record { source = self.source; offset = offset; bits = bits }) }
        ensures too_far { IfErr result (λ e. e ≡ TooFar) }
    {
        if offset > FARTHEST || offset < -FARTHEST {
            return Err(DeadEnd::TooFar);
        }
        Ok(SourcedPlace {
            source: self.source,
            offset,
            bits,
        })
    }

    /// The place so many bytes further.
    pub fn further(self, more: u128) -> Result<Self, DeadEnd>
        requires { more < 2 ^ 96 }
        ensures there { IfOk result (λ s. s ≡ places.further self (pos more)) }
        ensures too_far { IfErr result (λ e. e ≡ TooFar) }
    {
        let offset = self.offset + more as i128;
        self.moved(offset, None)
    }

    pub fn place(&self) -> Place<'_>
        ensures same { result ≡ self.now }
        ensures near { IsNear 16 (result.offset) }
    {
        Place {
            source: &self.source,
            offset: self.offset,
            bits: self.bits,
        }
    }
}

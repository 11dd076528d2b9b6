//! The row of an address.

ghost use Rattle.std.specs.Prelude.{◌≡◌};
ghost use Rattle.dwarf_line.specs.Place.{place, IsPlaceIfAny};

use crate::lines::{Lines, Row};
use crate::sequences::Sequences;

#[tactic(auto, unfolding(crate::specs::Place::place))]
fn row_of(address: u32, sequences: &Sequences) -> Option<Row>
    ensures { result ≡ place address sequences.now }
{
    match sequences.first_holding(address) {
        Some(s) => s.rows.nearest(address),
        None => None,
    }
}

impl Lines<'_> {
    /// The row of a code address: in the first sequence that holds it the one with the greatest
    /// address not past it, the last of equals. None where no sequence holds the address.
    pub fn place(&self, address: u32) -> Option<Row>
        ensures exact { result ≡ place address self.now.sequences }
        ensures is { IsPlaceIfAny address self.now.sequences result }
    {
        row_of(address, &self.sequences)
    }
}

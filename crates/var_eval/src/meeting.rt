//! What a step meets.

ghost use Rattle.std.specs.Prelude.{◌≡◌};
ghost use Rattle.dwarf_entries.specs.Origins.{longest_chain};
ghost use Rattle.dwarf_types.specs.Types.{behind};
ghost use Rattle.var_eval.specs.Steps as steps;
ghost use Rattle.var_eval.specs.inner.Told.{Tells};

use crate::dead_end::DeadEnd;
use dwarf_entries::LONGEST_CHAIN;
use dwarf_types::{Behind, TypeStanding, Typed, TypedUnits, resolved};
use var_values::{Bits, Mark};

/// The entry that stands behind the type of a part, without its first so many subranges.
#[derive(Drop)]
pub struct Met<'r, 'k, 'a> {
    pub standing: TypeStanding<'r, 'k, 'a>,
    pub skipped: usize,
}

/// What stands behind the type of a part that has these bits. No step leads on from a bit-field.
pub fn meet<'r, 'k, 'a>(
    units: &TypedUnits<'r, 'k, 'a>,
    typed: Typed<'r, 'k, 'a>,
    bits: Option<Bits>,
) -> Result<Met<'r, 'k, 'a>, DeadEnd>
    ensures { Tells result (steps.met_as bits (behind units.now longest_chain typed.entry)) }
{
    match resolved(units, LONGEST_CHAIN, typed) {
        Behind::Nothing => Err(DeadEnd::Marked(Mark::UnsupportedType)),
        Behind::TooDeep => Err(DeadEnd::Marked(Mark::TypeTooDeep)),
        Behind::Stands { standing, skipped } => match bits {
            Some(_) => Err(DeadEnd::Marked(Mark::UnsupportedType)),
            None => Ok(Met { standing, skipped }),
        },
    }
}

//! Expressions of a unit.

ghost use Rattle.std.specs.Prelude.{◌≡◌, ℕ, List, IfOk};
ghost use Rattle.dwarf5_info.specs.Units.{plain_of};
ghost use Rattle.dwarf5_info.specs.calls.PlainGrammar.{IsPlainOf};

use crate::address_table;
use crate::addresses::with_addresses;
use causes::NoMemory;
use dwarf_info::{Sections5, Unit};
use pm_text::{Bytes, Items};
use std::alloc::Global;

/// An expression of a unit with addr in place of each addrx whose index has an address, up to the
/// first operator that is not known or has no reading. That of a unit of another version than 5
/// stays as it is.
pub fn plain_expr(
    alloc: Global,
    sections: &Sections5<'_>,
    unit: &Unit<'_>,
    expr: &[u8],
) -> Result<Bytes, NoMemory>
    ensures exact { IfOk result (λ bytes. bytes ≡ plain_of sections.now unit.now expr.now) }
    ensures spelled { IfOk result (IsPlainOf sections.now unit.now expr.now) }
    ensures only { IfOk result (λ bytes. (other : List ℕ)
        → IsPlainOf sections.now unit.now expr.now other → other ≡ bytes) }
{
    if unit.version == 5 {
        with_addresses(alloc, &address_table(sections, unit), expr)
    } else {
        Items::from_slice(alloc, expr)
    }
}

//! The operands that an expression names.

ghost use Rattle.std.specs.Prelude.{◌≡◌, ◌<◌, ◌^◌, length};
ghost use Rattle.dwarf_expr.specs.Decode.{operators};
ghost use Rattle.dwarf_expr.specs.Named as named;
ghost use Rattle.dwarf_expr.specs.inner.Steps.{is_known};

use crate::decode::next_operator;
use crate::operators::{Begun, Operator, Space};
use wasm_bytes::Reader;

/// Whether an opcode begins the place of an operand of this number or a greater one.
fn is_operand_from(begun: Begun, least: u64) -> bool
    ensures { result ≡ named.is_operand_from least begun }
{
    match begun {
        Begun::Known(Operator::Location(Space::Operand, number)) => least <= number,
        _ => false,
    }
}

fn is_known(begun: Begun) -> bool
    ensures { result ≡ is_known begun }
{
    match begun {
        Begun::Known(_) => true,
        Begun::Cut | Begun::Foreign => false,
    }
}

/// Whether an expression names an operand of this number or a greater one, counted from the bottom.
pub fn names_operand_from(expr: &[u8], least: u64) -> bool
    requires short { length expr.now < 2 ^ 32 }
    ensures { result ≡ named.names_operand_from least (operators expr.now) }
{
    let mut reader = Reader::new(expr);
    'operators: while let Some(placed) = next_operator(&mut reader) {
        if is_operand_from(placed.begun, least) {
            return true;
        }
        if !is_known(placed.begun) {
            return false;
        }
    }
    false
}

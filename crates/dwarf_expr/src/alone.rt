//! Expressions that are one WebAssembly location alone.

ghost use Rattle.std.specs.Prelude.{ℕ, ◌≡◌, ◌<◌, ◌≤◌, ◌-◌, ◌^◌, length};
ghost use Rattle.dwarf_expr.specs.Decode.{operators, operators_from, others_behind};
ghost use Rattle.dwarf_expr.specs.Meaning as meaning;
ghost use Rattle.dwarf_expr.specs.inner.Steps.{IfKnown};

use crate::decode::next_operator;
use crate::operators::Begun;
use wasm_bytes::Reader;

/// No operator stands there.
fn ends(reader: &Reader<'_>) -> bool
    ensures { (n : ℕ) → length reader.now.block - reader.now.at ≤ n
        → result ≡ meaning.is_empty (operators_from n reader.now) }
{
    match reader.fork().byte() {
        Ok(_) => false,
        Err(_) => true,
    }
}

/// Nothing is told behind an operator that begins so.
fn is_last(begun: Begun, reader: &Reader<'_>) -> bool
    ensures { (n : ℕ) → IfKnown begun (length reader.now.block - reader.now.at ≤ n)
        → result ≡ meaning.is_empty (others_behind begun (operators_from n reader.now)) }
{
    match begun {
        Begun::Known(_) => ends(reader),
        Begun::Cut | Begun::Foreign => true,
    }
}

/// Whether an expression is one WebAssembly location alone.
pub fn is_location(expr: &[u8]) -> bool
    requires short { length expr.now < 2 ^ 32 }
    ensures { result ≡ meaning.is_location (operators expr.now) }
{
    let mut reader = Reader::new(expr);
    match next_operator(&mut reader) {
        Some(first) => is_last(first.begun, &reader) && first.opcode == 0xed,
        None => false,
    }
}

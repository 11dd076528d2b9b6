//! The greatest number of operands at once in a function.

ghost use Rattle.std.specs.Prelude.{◌≡◌, ◌≤◌, ◌⊎◌, ℕ, ◌<◌};
ghost use Rattle.wasm_validate.specs.Heights.{HasOp};
ghost use Rattle.operand_spill.specs.inner.Greatest.{IsGreatestUpTo, height_or_zero};

use wasm_validate::Validated;

/// The greater of a height and that of an instruction, which has none in dead code.
fn greater(most: u32, height: Option<u32>) -> u32
    ensures over { most ≤ result }
    ensures holds { height_or_zero height ≤ result }
    ensures either { (result ≡ most) ⊎ (result ≡ height_or_zero height) }
{
    match height {
        Some(height) => most.max(height),
        None => most,
    }
}

/// The greatest height of the first instructions of a function.
pub(crate) fn greatest_height(source: &Validated, func: u32, count: u32) -> u32
    requires { (op : ℕ) → op < count → HasOp source.now func op }
    ensures { IsGreatestUpTo source.now func count result }
{
    let mut most = 0;
    for op in 0..count {
        most = greater(most, source.height(func, op));
    }
    most
}

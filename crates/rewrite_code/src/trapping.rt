//! Which instructions can trap.

ghost use Rattle.std.specs.Prelude.{◌≡◌};
ghost use Rattle.rewrite_bodies.specs.calls.Guards.{can_trap, divides};

use wasm_syntax::{Basic, Binary};

fn divides(operator: Binary) -> bool
    ensures { result ≡ divides operator }
{
    matches!(
        operator,
        Binary::DivS | Binary::DivU | Binary::RemS | Binary::RemU
    )
}

/// Whether an instruction can trap.
pub fn can_trap(instruction: &Basic) -> bool
    ensures { result ≡ can_trap instruction.now }
{
    match *instruction {
        Basic::Binary(_, operator) => divides(operator),
        Basic::Load(..) | Basic::Store(..) | Basic::MemoryCopy | Basic::MemoryFill => true,
        _ => false,
    }
}

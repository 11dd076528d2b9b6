//! Expressions.

ghost use Rattle.std.specs.Prelude.{◌≡◌, ◌++◌, OnOk};
ghost use Rattle.wasm_syntax.specs.Module.{InOrder};
ghost use Rattle.wasm_encode.specs.Encoding.{expression_bytes};
ghost use Rattle.wasm_encode.specs.calls.Fits.{FitsExpression};

use causes::NoMemory;
use wasm_format::write_instr;
use wasm_syntax::Body;

/// Appends the instructions of a body, with its last `end` (Core 5.4.6).
#[tactic(auto, unfolding(crate::specs::Encoding::expression_bytes))]
pub fn write_expression(out: &mut Vec<u8>, body: &Body) -> Result<(), NoMemory>
    requires { InOrder body.now }
    ensures exact { OnOk result (out.new.items ≡ out.old.items ++ expression_bytes body.now) }
    ensures fits { OnOk result (FitsExpression body.now) }
{
    for op in body.ops.as_slice() {
        write_instr(out, &op.code, &body.targets)?;
    }
    Ok(())
}

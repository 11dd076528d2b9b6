//! Values as text.

ghost use Rattle.std.specs.Prelude.{◌≡◌, ◌++◌, OnOk};
ghost use Rattle.commands.specs.Values.{value_text};

use causes::NoMemory;
use pm_text::Text;
use wasm_syntax::Value;

/// Adds a value as `i32:-1` or `i64:255`, signed.
pub fn push_value(out: &mut Text, value: Value) -> Result<(), NoMemory>
    ensures { OnOk result (out.new ≡ out.old ++ value_text value) }
{
    match value {
        Value::I32(bits) => {
            out.push_str("i32:")?;
            out.push_decimal(i128::from(bits.cast_signed()))
        }
        Value::I64(bits) => {
            out.push_str("i64:")?;
            out.push_decimal(i128::from(bits.cast_signed()))
        }
    }
}

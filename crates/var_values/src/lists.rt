//! Lists of the values of a variant (DWARF 4 sections 5.5.9 and 7.18).

ghost use Rattle.std.specs.Prelude.{◌≡◌, length};
ghost use Rattle.wasm_bytes.specs.calls.Answers.{Reads};
ghost use Rattle.var_values.specs.Lists as lists;

use crate::discriminant::Discriminant;
use wasm_bytes::{Malformed, Reader};

/// A value, as the type of the discriminant has its numbers.
fn value(reader: &mut Reader<'_>, signed: bool) -> Result<i128, Malformed>
    ensures { Reads result reader.new (lists.value_item signed reader.old) }
{
    if signed {
        let value = reader.s64()?;
        return Ok(i128::from(value));
    }
    let value = reader.u64()?;
    Ok(i128::from(value))
}

/// A label or a range: the least value and the greatest one.
#[tactic(auto, unfolding(crate::specs::Lists::range_item))]
fn range(reader: &mut Reader<'_>, signed: bool) -> Result<(i128, i128), Malformed>
    ensures { Reads result reader.new (lists.range_item signed reader.old) }
{
    let descriptor = reader.u64()?;
    match descriptor {
        0 => {
            let only = value(reader, signed)?;
            Ok((only, only))
        }
        1 => {
            let least = value(reader, signed)?;
            let greatest = value(reader, signed)?;
            Ok((least, greatest))
        }
        _ => Err(Malformed { at: reader.at() }),
    }
}

/// Whether a number is between the least one and the greatest one of a range.
fn is_in(wanted: Discriminant, range: (i128, i128)) -> bool
    ensures { result ≡ lists.is_in wanted.number range }
{
    range.0 <= wanted.number && wanted.number <= range.1
}

/// Whether a number is in one of the labels and ranges of a list, up to one that has no reading.
pub fn is_listed(list: &[u8], wanted: Discriminant) -> bool
    ensures { result ≡ lists.is_listed (length list.now) wanted.signed wanted.number
        (record { block = list.now; at = 0 }) }
{
    let mut reader = Reader::new(list);
    let mut left = list.len();
    'items: while left > 0 {
        left -= 1;
        let Ok(found) = range(&mut reader, wanted.signed) else {
            return false;
        };
        if is_in(wanted, found) {
            return true;
        }
    }
    false
}

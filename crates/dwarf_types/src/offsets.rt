//! What is known of entries, by their offsets.

ghost use Rattle.std.specs.Prelude.{◌≡◌, ℕ, Some, OnOk, if◌then◌else◌};
ghost use Rattle.std.specs.Ordering.{nat_cmp, is_eq};
ghost use Rattle.std.specs.BTreeMap.{get};

use causes::NoMemory;
use std::collections::BTreeMap;

/// Keeps what is known of the entry at an offset.
pub(crate) fn keep<T: Drop>(known: &mut BTreeMap<u32, T>, at: u32, value: T) -> Result<(), NoMemory>
    ensures { OnOk result ((q : ℕ) → get nat_cmp known.new q
        ≡ (if is_eq (nat_cmp at q) then Some value else get nat_cmp known.old q)) }
{
    match known.insert(at, value) {
        Ok(_) => Ok(()),
        Err(_) => Err(NoMemory),
    }
}

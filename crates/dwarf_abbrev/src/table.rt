//! Tables that are looked up by code.

ghost use Rattle.std.specs.Prelude.{◌≡◌, ◌==◌, ℕ, IfOk, find};
ghost use Rattle.std.specs.Option.{option_copied};
ghost use Rattle.std.specs.Ordering.{nat_cmp};
ghost use Rattle.std.specs.BTreeMap.{get};
ghost use Rattle.dwarf_abbrev.specs.calls.Places.{IsPlaced};

use causes::NoMemory;
use pm_text::Items;
use std::alloc::Global;
use std::collections::BTreeMap;
use std::marker::Model;

/// A type whose values have a code.
pub trait Coded: Drop {
    ghost code: { Self → ℕ };

    fn code(&self) -> u64
        ensures { result ≡ code self.now };
}

/// A list of values, of which the first one of a code is found in logarithmic time. Contracts see
/// it as the list.
#[derive(Drop)]
pub struct Table<T: Coded> {
    items: Items<T>,
    // Where the first value of each code stands.
    places: BTreeMap<u64, usize>,
}

impl<T: Coded> Model for Table<T> {
    ghost use Rattle.std.specs.Prelude.{List};
    ghost use Rattle.std.specs.Ordering.{nat_cmp};
    ghost use Rattle.std.specs.BTreeMap.{get};
    ghost use Rattle.dwarf_abbrev.specs.calls.Places.{IsPlaced};

    ghost Value = { List T };

    ghost view = { λ t. t.items };

    ghost invariant = { λ t. IsPlaced T.code t.items (get nat_cmp t.places) };
}

/// Where the first value of each code stands.
fn places_of<T: Coded>(alloc: Global, items: &[T]) -> Result<BTreeMap<u64, usize>, NoMemory>
    ensures { IfOk result (λ places. IsPlaced T.code items.now (get nat_cmp places)) }
{
    let mut places = BTreeMap::new(alloc);
    'items: for (place, item) in items.iter().enumerate() {
        let code = item.code();
        if !places.contains_key(&code) {
            places.insert(code, place)?;
        }
    }
    Ok(places)
}

impl<T: Coded> Table<T> {
    /// The table of these values.
    pub fn new(alloc: Global, items: Items<T>) -> Result<Self, NoMemory>
        ensures { IfOk result (λ table. table ≡ items) }
    {
        match places_of(alloc, items.as_slice()) {
            Ok(places) => Ok(Table { items, places }),
            Err(NoMemory) => Err(NoMemory),
        }
    }

    /// The values, in order.
    pub fn as_slice(&self) -> &[T]
        ensures { result.now ≡ self.now }
    {
        self.items.as_slice()
    }

    /// The first value of a code.
    pub fn find(&self, code: u64) -> Option<&T>
        ensures { option_copied result ≡ find (λ item. T.code item == code) self.now }
    {
        let place = self.places.get(&code)?;
        self.items.get(*place)
    }
}

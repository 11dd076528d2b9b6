//! Numbers of steps by address, and by line.

ghost use Rattle.std.specs.Prelude.{◌≡◌, ◌<◌, ◌^◌, OnOk, unwrap_or};
ghost use Rattle.std.specs.Map.{lookup};
ghost use Rattle.std.specs.Ordering.{nat_cmp};
ghost use Rattle.std.specs.BTreeMap.{is_at};
ghost use Rattle.line_coverage.specs.inner.Order.{spot_cmp};
ghost use Rattle.line_coverage.specs.inner.Sums.{sum_all, AddsOne};

use crate::spots::Spot;
use causes::NoMemory;
use std::cmp::Ord;
use std::collections::BTreeMap;

/// The steps at an address.
fn visit_at(visits: &BTreeMap<u32, u64>, address: u32) -> u64
    ensures { result ≡ unwrap_or (lookup (is_at (nat_cmp address)) visits.now.entries) 0 }
{
    match visits.get(&address) {
        Some(steps) => *steps,
        None => 0,
    }
}

/// The steps on a line.
fn steps_at(spots: &BTreeMap<Spot, u64>, spot: Spot) -> u64
    ensures { result ≡ unwrap_or (lookup (is_at (spot_cmp spot)) spots.now.entries) 0 }
{
    match spots.get(&spot) {
        Some(steps) => *steps,
        None => 0,
    }
}

/// So many more steps at an address.
pub fn add_visit(visits: &mut BTreeMap<u32, u64>, address: u32, steps: u64) -> Result<(), NoMemory>
    ensures { OnOk result (AddsOne visits.old.entries visits.new.entries address steps) }
{
    let before = visit_at(visits, address);
    visits.insert(address, before.saturating_add(steps))?;
    Ok(())
}

/// So many more steps on a line.
pub fn add_spot(spots: &mut BTreeMap<Spot, u64>, spot: Spot, steps: u64) -> Result<(), NoMemory>
    ensures { OnOk result (AddsOne spots.old.entries spots.new.entries spot steps) }
{
    let before = steps_at(spots, spot);
    spots.insert(spot, before.saturating_add(steps))?;
    Ok(())
}

/// The sum of all numbers. It stops at 2^64 - 1.
pub fn total_of<K: Ord>(numbers: &BTreeMap<K, u64>) -> u64
    ensures { sum_all numbers.now.entries < 2 ^ 64 → result ≡ sum_all numbers.now.entries }
{
    let mut total = 0u64;
    'numbers: for (_, steps) in numbers.iter() {
        total = total.saturating_add(*steps);
    }
    total
}

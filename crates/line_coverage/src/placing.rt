//! Steps at addresses that become steps on lines. Each sequence takes the addresses that it holds
//! and that none before it took, so that each address is looked up once, however many line programs
//! there are.

ghost use Rattle.std.specs.Prelude.{◌≡◌, ◌<◌, true, false, Some, IfSome, IfNone, IfOk, OnOk};
ghost use Rattle.std.specs.Prelude.{[], length, map};
ghost use Rattle.std.specs.List.{AllByRecursion};
ghost use Rattle.std.specs.List.Sorted.{IsStrictlySortedBy};
ghost use Rattle.std.specs.Map.{lookup, keys_of};
ghost use Rattle.std.specs.Ordering.{nat_cmp};
ghost use Rattle.std.specs.BTreeMap.{is_at};
ghost use Rattle.dwarf_line.specs.Place.{holds, nearest};
ghost use Rattle.line_coverage.specs.calls.Spots.{spot_of};
ghost use Rattle.line_coverage.specs.inner.Order.{spot_cmp, line_of};
ghost use Rattle.line_coverage.specs.inner.Spans.{is_kept, span, within};
ghost use Rattle.line_coverage.specs.inner.Placing.{in_sequence, in_sequences, in_tables};
ghost use Rattle.line_coverage.specs.inner.Placing.{Moves, MovesOne};

use crate::spots::{LineCount, Spot};
use crate::sums::add_spot;
use causes::NoMemory;
use dwarf_line::{Lines, Row, Sequence};
use std::alloc::Global;
use std::collections::BTreeMap;

/// It is a first address that linkers do not give to removed code.
fn is_kept(first: u32) -> bool
    ensures { result ≡ is_kept first }
{
    first != 0 && first < 0xffff_fffe
}

/// The addresses that a sequence holds: from one up to but not including another.
fn span(sequence: &Sequence) -> Option<(u32, u32)>
    ensures { result ≡ span sequence.now }
{
    let first = sequence.rows.first()?.address;
    if is_kept(first) && first < sequence.end {
        return Some((first, sequence.end));
    }
    None
}

/// The first address from one up to but not including another, with its steps.
fn first_between(visits: &BTreeMap<u32, u64>, from: u32, to: u32) -> Option<(u32, u64)>
    requires { from < to }
    ensures some { IfSome result (λ v. (within from to v.0 ≡ true)
        × (lookup (is_at (nat_cmp v.0)) visits.now.entries ≡ Some v.1)) }
    ensures none { IfNone result
        (AllByRecursion (λ v. within from to v.0 ≡ false) visits.now.entries) }
{
    match visits.range(from..to).next() {
        Some((address, steps)) => Some((*address, *steps)),
        None => None,
    }
}

/// The first address that a sequence holds, with its steps.
fn first_held(visits: &BTreeMap<u32, u64>, sequence: &Sequence) -> Option<(u32, u64)>
    ensures some { IfSome result (λ v. (holds v.0 sequence.now ≡ true)
        × (lookup (is_at (nat_cmp v.0)) visits.now.entries ≡ Some v.1)) }
    ensures none { IfNone result
        (AllByRecursion (λ v. holds v.0 sequence.now ≡ false) visits.now.entries) }
{
    match span(sequence) {
        Some((from, to)) => first_between(visits, from, to),
        None => None,
    }
}

/// The row of an address that a sequence holds.
fn row_of(sequence: &Sequence, address: u32) -> Row
    requires { holds address sequence.now ≡ true }
    ensures { nearest address sequence.now.rows ≡ Some result }
{
    match sequence.rows.nearest(address) {
        Some(row) => row,
        None => unreachable!(),
    }
}

/// Adds the steps at an address to those on a line.
fn move_visit(
    spots: &mut BTreeMap<Spot, u64>,
    visits: &mut BTreeMap<u32, u64>,
    address: u32,
    steps: u64,
    spot: Spot,
) -> Result<(), NoMemory>
    requires { lookup (is_at (nat_cmp address)) visits.old.entries ≡ Some steps }
    ensures fewer { OnOk result (length visits.new.entries < length visits.old.entries) }
    ensures moves { OnOk result (MovesOne spots.old.entries visits.old.entries
        spots.new.entries visits.new.entries address spot) }
{
    visits.remove(&address);
    add_spot(spots, spot, steps)?;
    Ok(())
}

/// Adds the steps at the addresses that a sequence holds to those on their lines.
fn place_sequence(
    spots: &mut BTreeMap<Spot, u64>,
    visits: &mut BTreeMap<u32, u64>,
    table: usize,
    sequence: &Sequence,
) -> Result<(), NoMemory>
    ensures { OnOk result (Moves spots.old.entries visits.old.entries
        spots.new.entries visits.new.entries (in_sequence table sequence.now)) }
{
    'held: while let Some((address, steps)) = first_held(visits, sequence) {
        let row = row_of(sequence, address);
        let spot = Spot {
            table,
            file: row.file,
            line: row.line,
        };
        move_visit(spots, visits, address, steps, spot)?;
    }
    Ok(())
}

/// Adds the steps at the addresses of which a line program has a row to those on their lines.
fn place_table(
    spots: &mut BTreeMap<Spot, u64>,
    visits: &mut BTreeMap<u32, u64>,
    table: usize,
    lines: &Lines<'_>,
) -> Result<(), NoMemory>
    ensures { OnOk result (Moves spots.old.entries visits.old.entries
        spots.new.entries visits.new.entries (in_sequences table lines.now.sequences)) }
{
    let sequences = lines.sequences.as_slice();
    'sequences: for sequence in sequences {
        place_sequence(spots, visits, table, sequence)?;
    }
    Ok(())
}

/// The steps on lines. Left are those at addresses without a row.
pub fn place_visits(
    alloc: Global,
    tables: &Vec<&Lines<'_>>,
    visits: &mut BTreeMap<u32, u64>,
) -> Result<BTreeMap<Spot, u64>, NoMemory>
    ensures { IfOk result (λ spots. Moves [] visits.old.entries spots.entries visits.new.entries
        (in_tables 0 (map (λ l. l.now) tables.now.items))) }
{
    let mut spots = BTreeMap::new(alloc);
    'tables: for table in 0..tables.len() {
        place_table(&mut spots, visits, table, tables[table])?;
    }
    Ok(spots)
}

/// The lines in their order.
pub fn lines_of(alloc: Global, spots: &BTreeMap<Spot, u64>) -> Result<Vec<LineCount>, NoMemory>
    ensures lines { IfOk result (λ lines. lines.items ≡ map line_of spots.now.entries) }
    ensures ascend { IsStrictlySortedBy spot_cmp (keys_of spots.now.entries) }
{
    let mut lines = Vec::new(alloc);
    'spots: for (spot, steps) in spots.iter() {
        lines.push(LineCount {
            spot: *spot,
            steps: *steps,
        })?;
    }
    Ok(lines)
}

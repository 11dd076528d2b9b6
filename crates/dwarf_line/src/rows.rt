//! The rows of a sequence.

ghost use Rattle.std.specs.Prelude.{◌≡◌, ◌==◌, ◌&&◌, true, not, nat_lt, length, IfOk, slice_get};
ghost use Rattle.std.specs.Option.{option_copied};
ghost use Rattle.dwarf_line.specs.declared.lines.Row.{Row};
ghost use Rattle.dwarf_line.specs.Place.{greater, nearest};
ghost use Rattle.dwarf_line.specs.inner.Halving.{ascends_from, last_reached};
ghost use Rattle.dwarf_line.specs.inner.Order.{address_at, numbers_from, IsOrder};

use crate::lines::Row;
use causes::NoMemory;
use pm_text::Items;
use std::alloc::Global;
use std::marker::Model;

/// The rows of a sequence, which contracts see as the list.
#[derive(Drop)]
pub struct Rows {
    rows: Items<Row>,
    // Addresses ascend, as the standard wants it. Then a row is found by halving.
    ascend: bool,
    // Where they do not, the numbers of the rows by their addresses, and of equal ones in the
    // order of the list: a row is found by halving these. Else it is empty, and so it is for
    // removed code, which holds no address, so that none of its rows is looked for.
    order: Vec<usize>,
}

impl Model for Rows {
    ghost use Rattle.std.specs.Prelude.{◌≡◌, List};
    ghost use Rattle.dwarf_line.specs.declared.lines.Row.{Row};
    ghost use Rattle.dwarf_line.specs.inner.Order.{Serves};

    ghost Value = { List Row };

    ghost view = { λ r. r.rows };

    ghost invariant = { λ r. Serves r.ascend r.order.items r.rows };
}

/// Whether a first address is not one that linkers give to removed code.
pub(crate) fn is_kept(first: u32) -> bool
    ensures { result ≡ (not (first == 0) && nat_lt first 0xfffffffe) }
{
    first != 0 && first < 0xffff_fffe
}

/// Whether rows are those of code that was not removed.
fn are_kept(rows: &[Row]) -> bool {
    match rows.first() {
        Some(row) => is_kept(row.address),
        None => false,
    }
}

/// No address is less than the one in front of it.
fn are_ascending(rows: &[Row]) -> bool
    ensures { result ≡ ascends_from (λ (r : Row). r.address) 0 rows.now }
{
    let mut reached = 0;
    for row in rows {
        if row.address < reached {
            return false;
        }
        reached = row.address;
    }
    true
}

/// The last row that is not past this address, by halving, where addresses ascend.
fn last_reached(address: u32, rows: &[Row]) -> Option<Row>
    requires { ascends_from (λ (r : Row). r.address) 0 rows.now ≡ true }
    ensures { result ≡ last_reached (λ (r : Row). r.address) address rows.now }
{
    let count = rows.partition_point(|r| r.address <= address);
    if count == 0 {
        return None;
    }
    Some(rows[count - 1])
}

/// The address of the row of a number from 0, or 0 past the end.
fn address_at(rows: &[Row], number: usize) -> u32
    ensures { result ≡ address_at rows.now number }
{
    match rows.get(number) {
        Some(row) => row.address,
        None => 0,
    }
}

fn row_at(rows: &[Row], number: usize) -> Option<Row>
    ensures { result ≡ slice_get rows.now number }
{
    rows.get(number).copied()
}

/// So many numbers from 0 on.
fn numbers(alloc: Global, count: usize) -> Result<Vec<usize>, NoMemory>
    ensures { IfOk result (λ numbers. numbers.items ≡ numbers_from 0 count) }
{
    let mut numbers = Vec::with_capacity(alloc, count)?;
    for number in 0..count {
        numbers.push(number)?;
    }
    Ok(numbers)
}

/// The numbers of the rows by their addresses. As no two are equal, the sort need not be stable,
/// and takes no memory.
fn order_of(alloc: Global, rows: &[Row]) -> Result<Vec<usize>, NoMemory>
    ensures { IfOk result (λ order. IsOrder order.items rows.now) }
{
    let mut order = numbers(alloc, rows.len())?;
    order.sort_unstable_by_key(|number| (address_at(rows, *number), *number));
    Ok(order)
}

/// The one with the greater address, the second of equals.
fn greater(a: Row, b: Row) -> Row
    ensures { result ≡ greater a b }
{
    if a.address <= b.address { b } else { a }
}

/// The row with the greatest address not past this one, the last of equals, in linear time.
fn searched(address: u32, rows: &[Row]) -> Option<Row>
    ensures { result ≡ nearest address rows.now }
{
    rows.iter()
        .copied()
        .filter(|r| r.address <= address)
        .reduce(greater)
}

/// The row with the greatest address not past this one, the last of equals, by halving an order.
fn nearest_by(address: u32, order: &[usize], rows: &[Row]) -> Option<Row>
    requires { IsOrder order.now rows.now }
    ensures { result ≡ nearest address rows.now }
{
    let count = order.partition_point(|number| address_at(rows, *number) <= address);
    if count == 0 {
        return None;
    }
    row_at(rows, order[count - 1])
}

impl Rows {
    /// The list of these rows, in their order.
    pub fn new(alloc: Global, rows: Items<Row>) -> Result<Self, NoMemory>
        ensures { IfOk result (λ r. r ≡ rows) }
    {
        let ascend = are_ascending(rows.as_slice());
        if ascend || !are_kept(rows.as_slice()) {
            return Ok(Rows {
                rows,
                ascend,
                order: Vec::new(alloc),
            });
        }
        match order_of(alloc, rows.as_slice()) {
            Ok(order) => Ok(Rows {
                rows,
                ascend,
                order,
            }),
            Err(NoMemory) => Err(NoMemory),
        }
    }

    pub fn as_slice(&self) -> &[Row]
        ensures { result.now ≡ self.now }
    {
        self.rows.as_slice()
    }

    pub fn len(&self) -> usize
        ensures { result ≡ length self.now }
    {
        self.rows.len()
    }

    pub fn first(&self) -> Option<&Row>
        ensures { option_copied result ≡ slice_get self.now 0 }
    {
        self.rows.get(0)
    }

    /// The row with the greatest address not past this one, the last of equals: in logarithmic
    /// time, but for removed code.
    pub fn nearest(&self, address: u32) -> Option<Row>
        ensures { result ≡ nearest address self.now }
    {
        if self.ascend {
            last_reached(address, self.rows.as_slice())
        } else if self.order.is_empty() {
            searched(address, self.rows.as_slice())
        } else {
            nearest_by(address, self.order.as_slice(), self.rows.as_slice())
        }
    }
}

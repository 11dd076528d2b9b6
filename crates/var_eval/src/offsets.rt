//! Whether the offsets of entries ascend, so that each entry is the one at its offset.

ghost use Rattle.std.specs.Prelude.{◌≡◌, nat_lt, true};
ghost use Rattle.var_eval.specs.calls.Offsets as offsets;

use dwarf_info::{Entry, UnitAnswer};

/// Whether an entry has a lower offset.
fn is_below(entry: &Entry<'_>, least: u64) -> bool
    ensures { result ≡ nat_lt entry.now.at least }
{
    u64::from(entry.at) < least
}

/// The offset behind the last of these, where they ascend from one on.
fn rises_in(entries: &[Entry<'_>], least: u64) -> Option<u64>
    ensures { result ≡ offsets.rises_in least entries.now }
{
    let mut left = entries;
    let mut least = least;
    'entries: while let [entry, behind @ ..] = left {
        if is_below(entry, least) {
            return None;
        }
        least = u64::from(entry.at) + 1;
        left = behind;
    }
    Some(least)
}

fn rises_of(answer: &UnitAnswer<'_>, least: u64) -> Option<u64>
    ensures { result ≡ offsets.rises_of least answer.now }
{
    match answer {
        UnitAnswer::Tree(unit) => rises_in(unit.entries.as_slice(), least),
        UnitAnswer::Unreadable { section: _, at: _ } => Some(least),
    }
}

/// The same of all units, from the lowest offset on.
fn rises(units: &[UnitAnswer<'_>]) -> Option<u64>
    ensures { result ≡ offsets.rises 0 units.now }
{
    let mut left = units;
    let mut least = 0;
    'units: while let [answer, behind @ ..] = left {
        match rises_of(answer, least) {
            Some(next) => least = next,
            None => return None,
        }
        left = behind;
    }
    Some(least)
}

/// Whether the offsets of all entries ascend.
#[tactic(auto, using(crate::proofs::OffsetLaws::all_at))]
pub fn ascend(units: &[UnitAnswer<'_>]) -> bool
    ensures { result ≡ true → offsets.AllAreAt units.now units.now }
{
    match rises(units) {
        Some(_) => true,
        None => false,
    }
}

//! Parts of the entries of a unit of which none is an inlined subroutine that holds an address: they
//! are passed over.

ghost use Rattle.std.specs.Prelude.{◌≡◌, ◌≤◌, ◌<◌, ◌+◌, ◌*◌, ℕ, List, [], true, false, length, take, drop};
ghost use Rattle.std.specs.Prelude.{IfOk, OnOk, not, option_and_then};
ghost use Rattle.std.specs.List.{list_any};
ghost use Rattle.dwarf_info.specs.declared.entry.Entry.{Entry as Listed};
ghost use Rattle.dwarf_scopes.specs.calls.Spans.{covers};
ghost use Rattle.dwarf_scopes.specs.calls.Levels as definitions;
ghost use Rattle.dwarf_scopes.specs.inner.Insides.{insides};

use crate::insides::insides_of;
use crate::ranges::bounds;
use crate::spans::{Span, Spans};
use crate::variables::first_entries;
use causes::NoMemory;
use dwarf_entries::names::RANGES;
use dwarf_entries::offset;
use dwarf_entries::tags::INLINED_SUBROUTINE;
use dwarf_info::{Entry, Unit, UnitAnswer};
use pm_text::Items;
use std::alloc::Global;

/// So many entries are a part, and so many parts one of the next level.
const FOLD: usize = 8;

/// The entries of a unit by parts of so many, as far as they are whole: each has the addresses that
/// may be held in it.
#[derive(Drop)]
pub struct Level {
    pub size: usize,
    pub parts: Items<Spans>,
}

/// The entries of a unit by parts of any size.
#[derive(Drop)]
pub struct UnitLevels {
    /// How many entries stand in each.
    pub counts: Items<u32>,
    /// No entry is an inlined subroutine that may hold an address: then there are no levels.
    pub quiet: bool,
    /// The one of the smallest parts first.
    pub levels: Items<Level>,
}

/// The addresses that an entry may hold where it is an inlined subroutine: all, where it has a list.
fn may_hold(entry: &Entry<'_>) -> Option<(u32, i128)>
    ensures { result ≡ definitions.may_bounds entry.now }
{
    if entry.tag != INLINED_SUBROUTINE {
        return None;
    }
    match bounds(entry) {
        Some(bounds) => Some(bounds),
        None => {
            let _at = offset(&entry.attributes, RANGES)?;
            Some((0, 0x1_0000_0000))
        }
    }
}

/// The last address in front of this one, where there is one.
fn last_before(end: i128) -> u32
    ensures { result ≡ definitions.last_before end }
{
    match u32::try_from(end) {
        Ok(end) => end.saturating_sub(1),
        Err(_) => u32::MAX,
    }
}

/// The addresses from one up to another.
fn span_between(first: u32, end: i128) -> Option<Span>
    ensures { result ≡ definitions.span_between (first, end) }
{
    if i128::from(first) < end {
        let last = last_before(end);
        Some(Span { first, last })
    } else {
        None
    }
}

/// The addresses that an entry may hold, as a span.
fn span_of(entry: &Entry<'_>) -> Option<Span>
    ensures { result ≡ option_and_then definitions.span_between (definitions.may_bounds entry.now) }
{
    let (first, end) = may_hold(entry)?;
    span_between(first, end)
}

/// Addresses, and those that an entry may hold.
fn with_entry(alloc: Global, part: Spans, entry: &Entry<'_>) -> Result<Spans, NoMemory>
    ensures { IfOk result (definitions.IsWith part entry.now) }
{
    match span_of(entry) {
        Some(span) => part.with(alloc, span),
        None => Ok(part),
    }
}

/// A part.
fn part_of(alloc: Global, entries: &[Entry<'_>]) -> Result<Spans, NoMemory>
    ensures { IfOk result (definitions.IsPart entries.now) }
{
    let mut part = Spans::none(alloc);
    let mut left = entries;
    'entries: while let [entry, behind @ ..] = left {
        part = with_entry(alloc, part, entry)?;
        left = behind;
    }
    Ok(part)
}

/// Those from a number on.
pub fn entries_from<'r, 'a>(entries: &'r [Entry<'a>], size: usize) -> &'r [Entry<'a>]
    requires { size ≤ length entries.now }
    ensures { result.now ≡ drop size entries.now }
{
    &entries[size..]
}

/// Parts of so many entries, as far as they are whole.
fn parts_of(alloc: Global, size: usize, entries: &[Entry<'_>]) -> Result<Items<Spans>, NoMemory>
    requires { 0 < size }
    ensures { IfOk result (λ parts. definitions.AreParts size parts entries.now) }
{
    let mut parts = Items::new(alloc);
    let mut left = entries;
    'entries: while left.len() >= size {
        let front = first_entries(left, size);
        let behind = entries_from(left, size);
        let part = part_of(alloc, front)?;
        parts.push(part)?;
        left = behind;
    }
    Ok(parts)
}

/// Parts of twice as many entries, of two each.
fn doubled(alloc: Global, parts: &[Spans]) -> Result<Items<Spans>, NoMemory>
    ensures { IfOk result (λ double. (size : ℕ) → (entries : List Listed)
        → definitions.AreParts size parts.now entries
        → definitions.AreParts (size + size) double entries) }
{
    let mut double = Items::new(alloc);
    let mut left = parts;
    'parts: while let [one, two, behind @ ..] = left {
        let both = one.joined(alloc, two)?;
        double.push(both)?;
        left = behind;
    }
    Ok(double)
}

/// The parts of the next level.
fn larger(alloc: Global, parts: &[Spans]) -> Result<Items<Spans>, NoMemory>
    ensures { IfOk result (λ more. (size : ℕ) → (entries : List Listed)
        → definitions.AreParts size parts.now entries
        → definitions.AreParts (size * 8) more entries) }
{
    let double = doubled(alloc, parts)?;
    let made = doubled(alloc, double.as_slice());
    drop(double);
    let fourfold = made?;
    let eightfold = doubled(alloc, fourfold.as_slice());
    drop(fourfold);
    eightfold
}

/// Appends the levels of entries, as far as there are whole parts.
fn push_sizes(
    alloc: Global,
    entries: &[Entry<'_>],
    levels: &mut Items<Level>,
) -> Result<(), NoMemory>
    requires { levels.old ≡ [] }
    ensures { OnOk result (definitions.AreSized levels.new entries.now) }
{
    let mut size = FOLD;
    let mut parts = parts_of(alloc, FOLD, entries)?;
    'sizes: while size <= entries.len() / FOLD {
        let more = larger(alloc, parts.as_slice())?;
        levels.push(Level { size, parts })?;
        size *= FOLD;
        parts = more;
    }
    if parts.is_empty() {
        return Ok(());
    }
    levels.push(Level { size, parts })
}

/// An entry that holds no address as an inlined subroutine.
fn is_silent(entry: &Entry<'_>) -> bool
    ensures { result ≡ true → definitions.IsWith [] entry.now [] }
{
    span_of(entry).is_none()
}

/// Whether none of the entries may hold an address.
fn are_silent(entries: &[Entry<'_>]) -> bool
    ensures { result ≡ true → definitions.IsPart entries.now [] }
{
    let mut left = entries;
    'entries: while let [entry, behind @ ..] = left {
        if !is_silent(entry) {
            return false;
        }
        left = behind;
    }
    true
}

/// The levels of entries, or none where they are not asked.
fn sized(alloc: Global, quiet: bool, entries: &[Entry<'_>]) -> Result<Items<Level>, NoMemory>
    ensures { IfOk result (λ levels. definitions.AreSized levels entries.now) }
{
    let mut levels = Items::new(alloc);
    if quiet {
        return Ok(levels);
    }
    push_sizes(alloc, entries, &mut levels).and(Ok(levels))
}

/// Counts in four bytes each. More than these can say no memory holds.
fn narrowed(alloc: Global, counts: &[usize]) -> Result<Items<u32>, NoMemory>
    ensures { IfOk result (λ narrow. narrow ≡ counts.now) }
{
    let mut narrow = Items::new(alloc);
    for count in counts {
        let Ok(count) = u32::try_from(*count) else {
            return Err(NoMemory);
        };
        narrow.push(count)?;
    }
    Ok(narrow)
}

fn counts_of(alloc: Global, entries: &[Entry<'_>]) -> Result<Items<u32>, NoMemory>
    ensures { IfOk result (λ counts. counts ≡ insides entries.now) }
{
    let counts = insides_of(alloc, entries)?;
    let narrow = narrowed(alloc, counts.as_slice());
    drop(counts);
    narrow
}

impl UnitLevels {
    /// Those of a unit.
    fn of(alloc: Global, unit: &Unit<'_>) -> Result<Self, NoMemory>
        ensures { IfOk result (definitions.AreLevels unit.now.entries) }
    {
        let entries = unit.entries.as_slice();
        let quiet = are_silent(entries);
        let counts = counts_of(alloc, entries)?;
        match sized(alloc, quiet, entries) {
            Ok(levels) => Ok(UnitLevels {
                counts,
                quiet,
                levels,
            }),
            Err(e) => {
                drop(counts);
                Err(e)
            }
        }
    }

    /// None.
    fn none(alloc: Global) -> Self {
        UnitLevels {
            counts: Items::new(alloc),
            quiet: false,
            levels: Items::new(alloc),
        }
    }
}

fn levels_of(alloc: Global, answer: &UnitAnswer<'_>) -> Result<UnitLevels, NoMemory>
    ensures { IfOk result (definitions.IsLeveled answer.now) }
{
    match answer {
        UnitAnswer::Tree(unit) => UnitLevels::of(alloc, unit),
        UnitAnswer::Unreadable { section: _, at: _ } => Ok(UnitLevels::none(alloc)),
    }
}

/// Those of all units.
pub fn all_levels(alloc: Global, units: &[UnitAnswer<'_>]) -> Result<Items<UnitLevels>, NoMemory>
    ensures { IfOk result (λ levels. definitions.AreLeveled levels units.now) }
{
    let mut levels = Items::new(alloc);
    let mut left = units;
    'units: while let [answer, behind @ ..] = left {
        let level = levels_of(alloc, answer)?;
        levels.push(level)?;
        left = behind;
    }
    Ok(levels)
}

fn is_outside(spans: &Spans, address: u32) -> bool
    ensures { result ≡ not (covers spans.now address) }
{
    !spans.holds(address)
}

/// Whether none may hold an address of the entries of a part, which begins at a number. The parts have
/// so many entries.
#[tactic(auto, using(crate::proofs::LevelLaws::quiet_at))]
fn is_quiet(parts: &[Spans], size: usize, at: usize, address: u32) -> bool
    ensures { (entries : List Listed) → definitions.AreParts size parts.now entries
        → result ≡ true
        → list_any (definitions.may_hold address) (take size (drop at entries)) ≡ false }
{
    if size == 0 || at % size != 0 {
        return false;
    }
    match parts.get(at / size) {
        Some(spans) => is_outside(spans, address),
        None => false,
    }
}

/// How many entries from a number on are passed over by the parts of a level.
fn passed_by(level: &Level, at: usize, address: u32) -> usize
    ensures { (entries : List Listed) → definitions.AreParts level.now.size level.now.parts entries
        → list_any (definitions.may_hold address) (take result (drop at entries)) ≡ false }
{
    if is_quiet(level.parts.as_slice(), level.size, at, address) {
        level.size
    } else {
        0
    }
}

/// How many of so many levels, the one of the smallest parts first, have a part that begins at a
/// number.
fn beginning(levels: usize, at: usize) -> usize
    ensures { result ≤ levels }
{
    let mut count = 0;
    let mut number = at;
    'levels: while count < levels && number % FOLD == 0 {
        number /= FOLD;
        count += 1;
    }
    count
}

/// How many entries from a number on are passed over, for none of them may hold an address: those of
/// the largest such part that begins there, or all of a quiet unit.
pub fn passed(levels: &UnitLevels, at: usize, address: u32) -> usize
    ensures { (entries : List Listed) → definitions.AreLevels entries levels.now
        → list_any (definitions.may_hold address) (take result (drop at entries)) ≡ false }
{
    if levels.quiet {
        return usize::MAX;
    }
    let levels = levels.levels.as_slice();
    let mut left = beginning(levels.len(), at);
    'levels: while left > 0 {
        left -= 1;
        let quiet = passed_by(&levels[left], at, address);
        if quiet > 0 {
            return quiet;
        }
    }
    0
}

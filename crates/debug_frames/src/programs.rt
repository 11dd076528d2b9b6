//! The line programs that units name (DWARF 4 and 5 section 6.2).

ghost use Rattle.std.specs.Prelude.{◌≡◌, ◌==◌, ◌++◌, drop, find, fold, IfOk, OnOk, option_copied, option_map};
ghost use Rattle.std.specs.Ordering.{nat_cmp};
ghost use Rattle.std.specs.BTreeMap.{get};
ghost use Rattle.dwarf_abbrev.specs.calls.Places.{IsPlaced};
ghost use Rattle.dwarf_scopes.specs.calls.Numbered.{ranges_from};
ghost use Rattle.dwarf_scopes.specs.calls.Steps.{Answer};
ghost use Rattle.debug_frames.specs.Programs as definitions;
ghost use Rattle.debug_frames.specs.calls.Kept as kept;
ghost use Rattle.debug_frames.specs.inner.Paths.{row_place, path_at};
ghost use Rattle.debug_frames.specs.inner.Stores.{AreStored, seen, claims_in, places_among, is_read};

use crate::files::Path;
use crate::rows::RowPlace;
use crate::stored::{Room, Stored, push_claims, store, stored_path, stored_place};
use causes::NoMemory;
use dwarf_bytes::ReadFault;
use dwarf_entries::names::STMT_LIST;
use dwarf_entries::offset;
use dwarf_info::{Entry, PreparedSections, Sections5, UnitAnswer};
use dwarf_line::Lines;
use dwarf_scopes::{Range, Steps};
use dwarf5_line::read_prepared_lines5;
use pm_text::Items;
use std::alloc::Global;
use std::collections::BTreeMap;
use std::marker::Model;

/// What stands at an offset of `.debug_line`.
#[derive(Drop)]
pub enum Program<'a> {
    Read(Lines<'a>),
    Unreadable,
}

/// The line programs that units name, by their offsets in `.debug_line`. Contracts see them as
/// pairs, each where it is named first.
#[derive(Drop)]
pub struct Programs<'a> {
    sections: PreparedSections<'a>,
    programs: Items<(u32, Stored<'a>)>,
    // Where the program of each offset stands.
    places: BTreeMap<u32, usize>,
    // Which of them may hold an address first: none in front of it does.
    held: Steps,
}

impl<'a> Model for Programs<'a> {
    ghost use Rattle.std.specs.Prelude.{ℕ, List};
    ghost use Rattle.std.specs.Ordering.{nat_cmp};
    ghost use Rattle.std.specs.BTreeMap.{get};
    ghost use Rattle.dwarf_abbrev.specs.calls.Places.{IsPlaced};
    ghost use Rattle.dwarf_scopes.specs.calls.Numbered.{ranges_from};
    ghost use Rattle.dwarf_scopes.specs.calls.Steps.{Answer};
    ghost use Rattle.debug_frames.specs.declared.programs.Program.{Program};
    ghost use Rattle.debug_frames.specs.inner.Stores.{AreStored, seen, claims_in};

    ghost Value = { List (ℕ × Program) };

    ghost view = { λ p. seen p.sections p.programs };

    ghost invariant = { λ p. IsPlaced (λ x. x.0) p.programs (get nat_cmp p.places)
        × (Answer (ranges_from claims_in 0 p.programs) p.held
        × AreStored p.sections p.programs) };
}

/// What stands at an offset of `.debug_line`.
pub(crate) fn program_there<'a>(
    alloc: Global,
    sections: &PreparedSections<'a>,
    at: u32,
) -> Result<Program<'a>, NoMemory>
    ensures { IfOk result (λ program. program ≡ definitions.program_there sections.now at) }
{
    match read_prepared_lines5(alloc, sections, at as usize) {
        Ok(lines) => Ok(Program::Read(lines)),
        Err(ReadFault::Unreadable { at: _ }) => Ok(Program::Unreadable),
        Err(ReadFault::NoMemory) => Err(NoMemory),
    }
}

/// The offset of the line program that the root of these entries names.
pub fn named_by(entries: &[Entry<'_>]) -> Option<u32>
    ensures { result ≡ definitions.named_by entries.now }
{
    match entries.first() {
        Some(root) => offset(&root.attributes, STMT_LIST),
        None => None,
    }
}

/// The offset of the line program that a unit names.
pub fn named(answer: &UnitAnswer<'_>) -> Option<u32>
    ensures { result ≡ definitions.named answer.now }
{
    match answer {
        UnitAnswer::Tree(unit) => named_by(unit.entries.as_slice()),
        UnitAnswer::Unreadable { section: _, at: _ } => None,
    }
}

/// The addresses that programs may hold, with the numbers of the programs.
fn ranges_of(alloc: Global, programs: &[(u32, Stored<'_>)]) -> Result<Vec<Range>, NoMemory>
    ensures { IfOk result (λ ranges. ranges.items ≡ ranges_from claims_in 0 programs.now) }
{
    let mut ranges = Vec::new(alloc);
    'programs: for (number, (_, stored)) in programs.iter().enumerate() {
        push_claims(stored, number, &mut ranges)?;
    }
    Ok(ranges)
}

/// Which of these programs may hold an address first.
fn steps_of(alloc: Global, programs: &[(u32, Stored<'_>)]) -> Result<Steps, NoMemory>
    ensures { IfOk result (Answer (ranges_from claims_in 0 programs.now)) }
{
    match ranges_of(alloc, programs) {
        Ok(ranges) => Steps::of(alloc, ranges.as_slice()),
        Err(NoMemory) => Err(NoMemory),
    }
}

/// Reads the program at an offset, where it was not read before.
fn add<'a>(
    alloc: Global,
    sections: &PreparedSections<'a>,
    at: Option<u32>,
    room: &mut Room<'a>,
    programs: &mut Items<(u32, Stored<'a>)>,
    places: &mut BTreeMap<u32, usize>,
) -> Result<(), NoMemory>
    requires room { room.old.scans ≡ sections.now.base.line }
    requires placed { IsPlaced (λ x. x.0) programs.old (get nat_cmp places.old) }
    requires stored { AreStored sections.now programs.old }
    ensures value { OnOk result (seen sections.now programs.new
        ≡ kept.with_program sections.now (seen sections.now programs.old) at) }
    ensures placed { OnOk result (IsPlaced (λ x. x.0) programs.new (get nat_cmp places.new)) }
    ensures stored { OnOk result (AreStored sections.now programs.new) }
    ensures room { room.new.scans ≡ room.old.scans }
{
    let Some(at) = at else {
        return Ok(());
    };
    if places.contains_key(&at) {
        return Ok(());
    }
    let stored = store(alloc, sections, at, room)?;
    let number = programs.len();
    programs.push((at, stored))?;
    places.insert(at, number)?;
    Ok(())
}

/// Reads the programs that units name, each once. Those that are kept whole never have more bytes
/// than programs of bytes of their own could have.
fn add_all<'a>(
    alloc: Global,
    sections: &PreparedSections<'a>,
    units: &[UnitAnswer<'a>],
    programs: &mut Items<(u32, Stored<'a>)>,
    places: &mut BTreeMap<u32, usize>,
) -> Result<(), NoMemory>
    requires placed { IsPlaced (λ x. x.0) programs.old (get nat_cmp places.old) }
    requires stored { AreStored sections.now programs.old }
    ensures value { OnOk result (seen sections.now programs.new
        ≡ fold (λ xs u. kept.with_program sections.now xs (definitions.named u))
        (seen sections.now programs.old) units.now) }
    ensures placed { OnOk result (IsPlaced (λ x. x.0) programs.new (get nat_cmp places.new)) }
    ensures stored { OnOk result (AreStored sections.now programs.new) }
{
    let mut room = Room::new(alloc, sections);
    for answer in units {
        let at = named(answer);
        add(alloc, sections, at, &mut room, programs, places)?;
    }
    Ok(())
}

// ---- what is asked of them

/// The first program of an offset, beside it.
fn placed<'r, 'a>(
    at: u32,
    programs: &'r [(u32, Stored<'a>)],
    places: &BTreeMap<u32, usize>,
) -> Option<&'r (u32, Stored<'a>)>
    requires { IsPlaced (λ x. x.0) programs.now (get nat_cmp places.now) }
    ensures { option_copied result ≡ find (λ x. x.0 == at) programs.now }
{
    let place = places.get(&at)?;
    programs.get(*place)
}

/// What is kept of the first program of an offset.
fn stored_at<'r, 'a>(
    at: u32,
    programs: &'r [(u32, Stored<'a>)],
    places: &BTreeMap<u32, usize>,
) -> Option<&'r Stored<'a>>
    requires { IsPlaced (λ x. x.0) programs.now (get nat_cmp places.now) }
    ensures { option_copied result
        ≡ option_map (λ x. x.1) (find (λ x. x.0 == at) programs.now) }
{
    match placed(at, programs, places) {
        Some((_, stored)) => Some(stored),
        None => None,
    }
}

/// The programs from a number on.
fn behind<'r, 'a>(number: usize, programs: &'r [(u32, Stored<'a>)]) -> &'r [(u32, Stored<'a>)]
    ensures { result.now ≡ drop number programs.now }
{
    if programs.len() < number {
        return &[];
    }
    &programs[number..]
}

/// The place of the row of an address in the first of these programs that has one.
fn first_place<'a>(
    alloc: Global,
    sections: &PreparedSections<'a>,
    programs: &[(u32, Stored<'a>)],
    address: u32,
) -> Result<Option<RowPlace<'a>>, NoMemory>
    requires { AreStored sections.now programs.now }
    ensures { IfOk result (λ place. place
        ≡ places_among sections.now programs.now address) }
{
    for program in programs {
        match stored_place(alloc, sections, program.0, &program.1, address) {
            Ok(Some(place)) => return Ok(Some(place)),
            Ok(None) => {}
            Err(NoMemory) => return Err(NoMemory),
        }
    }
    Ok(None)
}

/// The same where it is known which of them may hold an address first: the first one of these has
/// a row, unless nothing but its bounds is kept.
fn place_by<'a>(
    alloc: Global,
    sections: &PreparedSections<'a>,
    programs: &[(u32, Stored<'a>)],
    held: &Steps,
    address: u32,
) -> Result<Option<RowPlace<'a>>, NoMemory>
    requires held { Answer (ranges_from claims_in 0 programs.now) held.now }
    requires stored { AreStored sections.now programs.now }
    ensures { IfOk result (λ place. place
        ≡ places_among sections.now programs.now address) }
{
    let Some(number) = held.at(address) else {
        return Ok(None);
    };
    first_place(alloc, sections, behind(number, programs), address)
}

/// The name of the file of a number in the program at an offset.
fn path_at<'a>(
    alloc: Global,
    sections: &PreparedSections<'a>,
    programs: &[(u32, Stored<'a>)],
    places: &BTreeMap<u32, usize>,
    at: u32,
    number: u64,
) -> Result<Option<Path<'a>>, NoMemory>
    requires placed { IsPlaced (λ x. x.0) programs.now (get nat_cmp places.now) }
    requires stored { AreStored sections.now programs.now }
    ensures { IfOk result (λ path. path
        ≡ path_at (kept.program_at (seen sections.now programs.now) at) number) }
{
    match stored_at(at, programs, places) {
        Some(stored) => stored_path(alloc, sections, at, stored, number),
        None => Ok(None),
    }
}

/// Adds what stands at an offset, where it can be read.
fn push_lines<'a>(
    alloc: Global,
    sections: &PreparedSections<'a>,
    at: u32,
    lines: &mut Items<Lines<'a>>,
) -> Result<(), NoMemory>
    ensures { OnOk result (lines.new
        ≡ lines.old ++ kept.read_in (definitions.program_there sections.now at)) }
{
    match program_there(alloc, sections, at) {
        Ok(Program::Read(read)) => lines.push(read),
        Ok(Program::Unreadable) => Ok(()),
        Err(NoMemory) => Err(NoMemory),
    }
}

fn lines_of<'a>(
    alloc: Global,
    sections: &PreparedSections<'a>,
    programs: &[(u32, Stored<'a>)],
) -> Result<Items<Lines<'a>>, NoMemory>
    ensures { IfOk result (λ lines. lines
        ≡ kept.readable (seen sections.now programs.now)) }
{
    let mut lines = Items::new(alloc);
    for program in programs {
        push_lines(alloc, sections, program.0, &mut lines)?;
    }
    Ok(lines)
}

impl<'a> Programs<'a> {
    #[tactic(auto, unfolding(crate::specs::calls::Kept::programs_of))]
    fn read(
        alloc: Global,
        sections: PreparedSections<'a>,
        units: &[UnitAnswer<'a>],
    ) -> Result<Self, NoMemory>
        ensures { IfOk result (λ programs. programs
            ≡ kept.programs_of sections.entry units.now) }
    {
        let mut programs = Items::new(alloc);
        let mut places = BTreeMap::new(alloc);
        match add_all(alloc, &sections, units, &mut programs, &mut places) {
            Ok(()) => match steps_of(alloc, programs.as_slice()) {
                Ok(held) => Ok(Programs {
                    sections,
                    programs,
                    places,
                    held,
                }),
                Err(NoMemory) => Err(NoMemory),
            },
            Err(NoMemory) => Err(NoMemory),
        }
    }

    /// The line programs that units name.
    pub fn of(
        alloc: Global,
        sections: &Sections5<'a>,
        units: &[UnitAnswer<'a>],
    ) -> Result<Self, NoMemory>
        ensures { IfOk result (λ programs. programs
            ≡ kept.programs_of sections.now units.now) }
    {
        match PreparedSections::new(alloc, sections) {
            Ok(prepared) => Programs::read(alloc, prepared, units),
            Err(NoMemory) => Err(NoMemory),
        }
    }

    /// Those that can be read, in the order in which units name them. They are read once more.
    ///
    /// # Errors
    ///
    /// `NoMemory` where memory runs out.
    pub fn lines(&self, alloc: Global) -> Result<Items<Lines<'a>>, NoMemory>
        ensures { IfOk result (λ lines. lines ≡ kept.readable self.now) }
    {
        lines_of(alloc, &self.sections, self.programs.as_slice())
    }

    /// Whether what stands at an offset that a unit names can be read.
    pub(crate) fn is_read(&self, at: u32) -> Option<bool>
        ensures { result ≡ option_map is_read (kept.program_at self.now at) }
    {
        match stored_at(at, self.programs.as_slice(), &self.places) {
            Some(stored) => Some(stored.is_read()),
            None => None,
        }
    }

    /// The name of the file of a number in the program at an offset that a unit names.
    pub(crate) fn path(
        &self,
        alloc: Global,
        at: u32,
        number: u64,
    ) -> Result<Option<Path<'a>>, NoMemory>
        ensures { IfOk result (λ path. path ≡ path_at (kept.program_at self.now at) number) }
    {
        let programs = self.programs.as_slice();
        path_at(alloc, &self.sections, programs, &self.places, at, number)
    }

    /// The place of the row of a code address: in the first program that has one.
    pub(crate) fn place(
        &self,
        alloc: Global,
        address: u32,
    ) -> Result<Option<RowPlace<'a>>, NoMemory>
        ensures { IfOk result (λ place. place
            ≡ option_map row_place (kept.located_among self.now address)) }
    {
        let programs = self.programs.as_slice();
        place_by(alloc, &self.sections, programs, &self.held, address)
    }
}

//! What is kept of line programs. Each may be in the bytes of others, so that all that they say
//! together has no bound in the bytes. So they are kept whole as long as they have no more bytes
//! than programs of bytes of their own could have; others are scanned for their bounds, which are
//! kept, and they are run where these hold an address.

ghost use Rattle.std.specs.Prelude.{◌≡◌, ◌++◌, ◌∷◌, [], pos, Some, option_map, flat_map, IfOk, OnOk};
ghost use Rattle.dwarf_scopes.specs.calls.Numbered.{with_number};
ghost use Rattle.debug_frames.specs.declared.programs.Program.{Program as ProgramThere};
ghost use Rattle.debug_frames.specs.Programs.{program_there, located_in};
ghost use Rattle.debug_frames.specs.inner.Paths.{row_place, path_in_program};
ghost use Rattle.debug_frames.specs.inner.Placing.{held_by};
ghost use Rattle.debug_frames.specs.inner.Stores.{hull_in, Serves, can_be_read, claims_of};

use crate::files::{Path, path_in};
use crate::held::{Held, push_held};
use crate::programs::{Program, program_there};
use crate::rows::{RowPlace, path_in_program, place_held, place_in_program};
use causes::NoMemory;
use dwarf_bytes::open_unit;
use dwarf_info::PreparedSections;
use dwarf_line::{Hull, Lines, Scans};
use dwarf_scopes::Range;
use dwarf5_line::{scan_lines5, scans5};
use std::alloc::Global;
use wasm_bytes::Reader;

/// What is kept of what stands at an offset of `.debug_line`.
#[derive(Drop)]
pub enum Stored<'a> {
    /// All that a program says.
    Whole(Held<'a>),
    Unreadable,
    /// The bounds of a program that can be read: it is read again where it is asked.
    Bounded(Hull),
}

impl Stored<'_> {
    /// A program stands there that can be read.
    pub(crate) fn is_read(&self) -> bool
        ensures { result ≡ can_be_read self.now }
    {
        match self {
            Stored::Whole(_) => true,
            Stored::Unreadable => false,
            Stored::Bounded(_) => true,
        }
    }
}

/// How many bytes more of programs are kept whole, and what scans of the others found.
#[derive(Drop)]
pub(crate) struct Room<'a> {
    left: usize,
    scans: Scans<'a>,
}

impl<'a> Room<'a> {
    /// As many bytes as all programs have.
    pub(crate) fn new(alloc: Global, sections: &PreparedSections<'a>) -> Self
        ensures { result.scans ≡ sections.now.base.line }
    {
        let left = sections.sections().base.line.len();
        let scans = scans5(alloc, sections);
        Room { left, scans }
    }
}

/// How many bytes the program at an offset has, or 0 where none begins there.
fn size_at(section: &[u8], at: usize) -> usize {
    if at > section.len() {
        return 0;
    }
    match open_unit(&mut Reader::starting_at(section, at)) {
        Ok(inner) => inner.end_at().saturating_sub(at),
        Err(_) => 0,
    }
}

/// Takes the bytes of the program at an offset off the room, where it has so many.
fn fits(section: &[u8], at: usize, left: &mut usize) -> bool {
    let size = size_at(section, at);
    if size > *left {
        return false;
    }
    *left -= size;
    true
}

fn whole<'a>(alloc: Global, program: Program<'a>) -> Result<Stored<'a>, NoMemory>
    ensures { IfOk result (Serves program.entry) }
{
    match program {
        Program::Read(lines) => match Held::new(alloc, lines) {
            Ok(held) => Ok(Stored::Whole(held)),
            Err(NoMemory) => Err(NoMemory),
        },
        Program::Unreadable => Ok(Stored::Unreadable),
    }
}

/// What is kept of a program of these bounds, if it can be read.
#[tactic(auto, using(crate::proofs::StoreLaws::unread_bounds))]
fn bounded<'a>(bounds: Option<Hull>) -> Stored<'a>
    ensures { (program : ProgramThere) → hull_in program ≡ bounds → Serves program result }
{
    match bounds {
        Some(hull) => Stored::Bounded(hull),
        None => Stored::Unreadable,
    }
}

/// What is kept of what stands at an offset: all of it, where there is so much room left.
pub(crate) fn store<'a>(
    alloc: Global,
    sections: &PreparedSections<'a>,
    at: u32,
    room: &mut Room<'a>,
) -> Result<Stored<'a>, NoMemory>
    requires { room.old.scans ≡ sections.now.base.line }
    ensures stored { IfOk result (Serves (program_there sections.now at)) }
    ensures same { room.new.scans ≡ room.old.scans }
{
    if fits(sections.sections().base.line, at as usize, &mut room.left) {
        return match program_there(alloc, sections, at) {
            Ok(program) => whole(alloc, program),
            Err(NoMemory) => Err(NoMemory),
        };
    }
    match scan_lines5(alloc, sections, at as usize, &mut room.scans) {
        Ok(bounds) => Ok(bounded(bounds)),
        Err(NoMemory) => Err(NoMemory),
    }
}

// ---- the addresses that it may hold

fn push_ranges(lines: &Lines<'_>, number: usize, ranges: &mut Vec<Range>) -> Result<(), NoMemory>
    ensures { OnOk result (ranges.new.items
        ≡ ranges.old.items ++ with_number number (flat_map held_by lines.now.sequences)) }
{
    for sequence in lines.sequences.as_slice() {
        push_held(sequence, number, ranges)?;
    }
    Ok(())
}

/// Adds the addresses between bounds, with the number of their program.
fn push_hull(hull: &Hull, number: usize, ranges: &mut Vec<Range>) -> Result<(), NoMemory>
    ensures { OnOk result (ranges.new.items
        ≡ ranges.old.items ++ with_number number ((hull.now.first, pos hull.now.«end») ∷ [])) }
{
    ranges.push(Range {
        first: hull.first,
        end: i128::from(hull.end),
        index: number,
    })?;
    Ok(())
}

/// Adds the addresses that a program may hold, with its number.
pub(crate) fn push_claims(
    stored: &Stored<'_>,
    number: usize,
    ranges: &mut Vec<Range>,
) -> Result<(), NoMemory>
    ensures { OnOk result (ranges.new.items
        ≡ ranges.old.items ++ with_number number (claims_of stored.now)) }
{
    match stored {
        Stored::Whole(held) => push_ranges(held.lines(), number, ranges),
        Stored::Unreadable => Ok(()),
        Stored::Bounded(hull) => push_hull(hull, number, ranges),
    }
}

// ---- what it says

/// The place of the row of an address in the program of these bounds, which is run again where they
/// hold the address.
fn place_within<'a>(
    alloc: Global,
    sections: &PreparedSections<'a>,
    at: u32,
    hull: &Hull,
    address: u32,
) -> Result<Option<RowPlace<'a>>, NoMemory>
    requires { hull_in (program_there sections.now at) ≡ Some hull.now }
    ensures { IfOk result (λ place. place
        ≡ option_map row_place (located_in (program_there sections.now at) address)) }
{
    if hull.holds(address) {
        return match program_there(alloc, sections, at) {
            Ok(again) => {
                let place = place_in_program(&again, address);
                drop(again);
                Ok(place)
            }
            Err(NoMemory) => Err(NoMemory),
        };
    }
    Ok(None)
}

/// The place of the row of an address in the program at an offset, of which this is kept.
pub(crate) fn stored_place<'a>(
    alloc: Global,
    sections: &PreparedSections<'a>,
    at: u32,
    stored: &Stored<'a>,
    address: u32,
) -> Result<Option<RowPlace<'a>>, NoMemory>
    requires { Serves (program_there sections.now at) stored.now }
    ensures { IfOk result (λ place. place
        ≡ option_map row_place (located_in (program_there sections.now at) address)) }
{
    match stored {
        Stored::Whole(held) => Ok(place_held(held, address)),
        Stored::Unreadable => Ok(None),
        Stored::Bounded(hull) => place_within(alloc, sections, at, hull, address),
    }
}

fn path_again<'a>(
    alloc: Global,
    sections: &PreparedSections<'a>,
    at: u32,
    number: u64,
) -> Result<Option<Path<'a>>, NoMemory>
    ensures { IfOk result (λ path. path
        ≡ path_in_program (program_there sections.now at) number) }
{
    match program_there(alloc, sections, at) {
        Ok(program) => {
            let path = path_in_program(&program, number);
            drop(program);
            Ok(path)
        }
        Err(NoMemory) => Err(NoMemory),
    }
}

/// The name of the file of a number in the program at an offset, of which this is kept.
pub(crate) fn stored_path<'a>(
    alloc: Global,
    sections: &PreparedSections<'a>,
    at: u32,
    stored: &Stored<'a>,
    number: u64,
) -> Result<Option<Path<'a>>, NoMemory>
    requires { Serves (program_there sections.now at) stored.now }
    ensures { IfOk result (λ path. path
        ≡ path_in_program (program_there sections.now at) number) }
{
    match stored {
        Stored::Whole(held) => Ok(path_in(held.lines(), number)),
        Stored::Unreadable => Ok(None),
        Stored::Bounded(_) => path_again(alloc, sections, at, number),
    }
}

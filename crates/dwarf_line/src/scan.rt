//! Programs of which nothing but bounds is made. Where programs of the same parameters end at the
//! same offset, the opcodes that they have in common are read once: what they make is kept at some
//! of their offsets, as an outline that stands for whatever is in front.

ghost use Rattle.std.specs.Prelude.{◌≡◌, ◌≤◌, length, take, option_map, IfOk, OnOk, List, ℕ};
ghost use Rattle.std.specs.Ordering.{nat_cmp};
ghost use Rattle.std.specs.BTreeMap.{get};
ghost use Rattle.wasm_bytes.specs.calls.Answers.{Gives};
ghost use Rattle.dwarf_line.specs.Program.{lines_at};
ghost use Rattle.dwarf_line.specs.calls.Hulls.{hull_if};
ghost use Rattle.dwarf_line.specs.inner.Scans.{AreKnown, IsShared, IsRest, IsTrail, Unwinds};
ghost use Rattle.dwarf_line.specs.inner.Scans.{entered_item, bounds_item};

use crate::effects::{Effect, read_effect};
use crate::header::{Header, Versions};
use crate::hull::Hull;
use crate::outline::{Outline, bounds_of, no_outline, with_front_if};
use crate::parameters::Parameters;
use causes::NoMemory;
use dwarf_bytes::{number, open_unit};
use std::alloc::Global;
use std::collections::BTreeMap;
use std::marker::Model;
use wasm_bytes::{ItemFault, Reader};

/// What an opcode does, and where it begins.
#[derive(Clone, Copy)]
pub struct Stride {
    pub at: usize,
    pub effect: Effect,
}

/// Opcodes, and the outline of those behind them, where these can be read.
#[derive(Drop)]
pub struct Trail {
    pub strides: Vec<Stride>,
    pub rest: Option<Outline>,
}

/// What is known of the opcodes from some offsets on, for programs of these parameters that end at
/// this offset.
#[derive(Drop)]
pub struct Shared<'a> {
    pub parameters: Parameters<'a>,
    pub until: usize,
    /// None where they cannot be read.
    pub known: BTreeMap<usize, Option<Outline>>,
}

/// Scans of the programs in a section, as which contracts see them.
#[derive(Drop)]
pub struct Scans<'a> {
    section: &'a [u8],
    shared: Shared<'a>,
}

impl<'a> Model for Scans<'a> {
    ghost use Rattle.std.specs.Prelude.{ℕ, List};
    ghost use Rattle.dwarf_line.specs.inner.Scans.{IsShared};

    ghost Value = { List ℕ };

    ghost view = { λ s. s.section.now };

    ghost invariant = { λ s. IsShared s.section.now s.shared };
}

/// Reads opcodes up to the end, or up to one from which on it is known what they make.
fn trail_from<'a>(
    alloc: Global,
    parameters: &Parameters<'_>,
    known: &BTreeMap<usize, Option<Outline>>,
    reader: &mut Reader<'a>,
) -> Result<Trail, NoMemory>
    requires { AreKnown parameters.now reader.old.block (get nat_cmp known.now) }
    ensures { IfOk result (IsTrail parameters.now reader.old) }
{
    let mut strides = Vec::new(alloc);
    'opcodes: while reader.left() > 0 {
        let at = reader.at();
        if let Some(rest) = known.get(&at) {
            return Ok(Trail {
                strides,
                rest: *rest,
            });
        }
        let Ok(effect) = read_effect(parameters, reader) else {
            return Ok(Trail {
                strides,
                rest: None,
            });
        };
        strides.push(Stride { at, effect })?;
    }
    // The place is inside its block, so that it stands at the end.
    let _at = reader.at();
    Ok(Trail {
        strides,
        rest: Some(no_outline()),
    })
}

/// The outline from the first opcode of a trail on, where they can be read.
fn unwound(trail: Trail) -> Option<Outline>
    ensures { Unwinds trail result }
{
    let mut strides = trail.strides;
    let mut rest = trail.rest;
    'strides: while let Some(stride) = strides.pop() {
        rest = with_front_if(stride.effect, rest);
    }
    rest
}

/// The outline of the opcodes from an offset of a block on, which is known from now on.
fn rest_at(
    alloc: Global,
    parameters: &Parameters<'_>,
    block: &[u8],
    at: usize,
    known: &mut BTreeMap<usize, Option<Outline>>,
) -> Result<Option<Outline>, NoMemory>
    requires inside { at ≤ length block.now }
    requires known { AreKnown parameters.now block.now (get nat_cmp known.old) }
    ensures rest { IfOk result (IsRest parameters.now block.now at) }
    ensures known { AreKnown parameters.now block.now (get nat_cmp known.new) }
{
    let mut reader = Reader::starting_at(block, at);
    let trail = trail_from(alloc, parameters, known, &mut reader)?;
    let rest = unwound(trail);
    known.insert(at, rest)?;
    Ok(rest)
}

/// How many opcodes stand between two marks.
const SPACING: usize = 16;

/// Where the first opcode and some others begin, up to the end, or up to one from which on it is
/// known what they make.
fn marks_from<'a>(
    alloc: Global,
    parameters: &Parameters<'_>,
    known: &BTreeMap<usize, Option<Outline>>,
    reader: &mut Reader<'a>,
) -> Result<Vec<usize>, NoMemory> {
    let mut marks = Vec::new(alloc);
    let mut passed: usize = 0;
    'opcodes: while reader.left() > 0 {
        let at = reader.at();
        if known.contains_key(&at) {
            return Ok(marks);
        }
        let Ok(_effect) = read_effect(parameters, reader) else {
            return Ok(marks);
        };
        if passed % SPACING == 0 {
            marks.push(at)?;
        }
        passed = passed.wrapping_add(1);
    }
    Ok(marks)
}

/// Makes known what opcodes make from marks on, the last first: then few are left to be read in
/// front of each, and no more than these are in memory.
fn learn_all(
    alloc: Global,
    parameters: &Parameters<'_>,
    block: &[u8],
    mut marks: Vec<usize>,
    known: &mut BTreeMap<usize, Option<Outline>>,
) -> Result<(), NoMemory>
    requires { AreKnown parameters.now block.now (get nat_cmp known.old) }
    ensures { AreKnown parameters.now block.now (get nat_cmp known.new) }
{
    'marks: while let Some(mark) = marks.pop() {
        if mark <= block.len() {
            let _rest = rest_at(alloc, parameters, block, mark, known)?;
        }
    }
    Ok(())
}

/// For programs of these parameters up to this end. What is known of others is forgotten.
fn turn_to<'a>(alloc: Global, parameters: Parameters<'a>, until: usize, shared: &mut Shared<'a>)
    ensures parameters { shared.new.parameters ≡ parameters.entry }
    ensures until { shared.new.until ≡ until }
    ensures known { (section : List ℕ) → IsShared section shared.old → IsShared section shared.new }
{
    if shared.until == until && shared.parameters.is_same(&parameters) {
        return;
    }
    *shared = Shared {
        parameters,
        until,
        known: BTreeMap::new(alloc),
    };
}

/// The outline from an offset on.
fn outline_there<'a>(
    alloc: Global,
    section: &'a [u8],
    at: usize,
    shared: &mut Shared<'a>,
) -> Result<Option<Outline>, NoMemory>
    requires inside { at ≤ shared.old.until }
    requires until { shared.old.until ≤ length section.now }
    requires known { IsShared section.now shared.old }
    ensures rest { IfOk result
        (IsRest shared.old.parameters (take shared.old.until section.now) at) }
    ensures known { IsShared section.now shared.new }
{
    let block = &section[..shared.until];
    let mut reader = Reader::starting_at(block, at);
    let marks = marks_from(alloc, &shared.parameters, &shared.known, &mut reader)?;
    learn_all(alloc, &shared.parameters, block, marks, &mut shared.known)?;
    rest_at(alloc, &shared.parameters, block, at, &mut shared.known)
}

/// The bounds of what the opcodes make from a place of the section on.
fn bounds_behind<'a>(
    alloc: Global,
    parameters: Parameters<'a>,
    section: &'a [u8],
    reader: &Reader<'a>,
    shared: &mut Shared<'a>,
) -> Result<Option<Hull>, NoMemory>
    requires block { reader.now.block ≡ take (length reader.now.block) section.now }
    requires known { IsShared section.now shared.old }
    ensures bounds { IfOk result (λ bounds. bounds ≡ bounds_item parameters.entry reader.now) }
    ensures known { IsShared section.now shared.new }
{
    turn_to(alloc, parameters, reader.end_at(), shared);
    let outline = outline_there(alloc, section, reader.at(), shared)?;
    Ok(bounds_of(outline))
}

/// The header of the unit that stands here. The reader goes on behind it, up to the unit's end.
fn enter<'a, V: Versions<'a>>(
    alloc: Global,
    versions: &V,
    reader: &mut Reader<'a>,
) -> Result<Header<'a>, ItemFault>
    ensures item { Gives result reader.new (entered_item (V.layouts versions.now) reader.old) }
    ensures block { OnOk result
        (reader.new.block ≡ take (length reader.new.block) reader.old.block) }
{
    let mut inner = open_unit(reader)?;
    let version = number(&mut inner, 2)? as u16;
    match versions.header(alloc, version, &mut inner) {
        Ok(header) => {
            *reader = inner;
            Ok(header)
        }
        Err(fault) => Err(fault),
    }
}

/// What the opcodes need of a header.
fn parameters_of<'a>(header: Header<'a>) -> Parameters<'a>
    ensures { result ≡ header.entry.parameters }
{
    header.parameters
}

/// The bounds of the program at an offset of a section, where it can be read.
fn scan<'a, V: Versions<'a>>(
    alloc: Global,
    versions: &V,
    section: &'a [u8],
    at: usize,
    shared: &mut Shared<'a>,
) -> Result<Option<Hull>, NoMemory>
    requires { IsShared section.now shared.old }
    ensures bounds { IfOk result (λ bounds. bounds
        ≡ hull_if (lines_at (V.layouts versions.now) section.now at)) }
    ensures known { IsShared section.now shared.new }
{
    if at > section.len() {
        return Ok(None);
    }
    let mut reader = Reader::starting_at(section, at);
    match enter(alloc, versions, &mut reader) {
        Ok(header) => {
            let parameters = parameters_of(header);
            bounds_behind(alloc, parameters, section, &reader, shared)
        }
        Err(ItemFault::At(_)) => Ok(None),
        Err(ItemFault::NoMemory) => Err(NoMemory),
    }
}

impl<'a> Scans<'a> {
    /// Nothing is known yet.
    pub fn new(alloc: Global, section: &'a [u8]) -> Self
        ensures { result ≡ section.now }
    {
        Scans {
            section,
            shared: Shared {
                parameters: Parameters::unused(),
                until: 0,
                known: BTreeMap::new(alloc),
            },
        }
    }

    /// The bounds of all addresses that the program at an offset holds, by the headers of these
    /// versions; None where no program that has a reading stands there. It takes no memory for
    /// rows, and the opcodes that it has in common with the program before it, up to the same end
    /// by the same parameters, are not read again.
    pub fn bounds<V: Versions<'a>>(
        &mut self,
        alloc: Global,
        versions: &V,
        at: usize,
    ) -> Result<Option<Hull>, NoMemory>
        ensures bounds { IfOk result (λ bounds. bounds
            ≡ hull_if (lines_at (V.layouts versions.now) self.old at)) }
        ensures same { self.new ≡ self.old }
    {
        scan(alloc, versions, self.section, at, &mut self.shared)
    }
}

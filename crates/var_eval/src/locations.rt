//! Where variables are (DWARF 4 sections 2.6, 3.3.5 and 4.1; DWARF 5 section 2.6).

ghost use Rattle.std.specs.Prelude.{◌≡◌, ◌<◌, ◌^◌, IfOk, Some, length, take, drop, true};
ghost use Rattle.dwarf_info.specs.declared.entry.AttrValue.TheVariants.{Offset};
ghost use Rattle.dwarf_scopes.specs.calls.Knowing.{AreFound};
ghost use Rattle.dwarf5_info.specs.Units.{plain_of};
ghost use Rattle.dwarf_expr.specs.FrameBase.{frame_base as base_given};
ghost use Rattle.var_eval.specs.Locations as locations;
ghost use Rattle.var_eval.specs.inner.Sourcing.{source_from};

use crate::frame::VariableFrame;
use crate::located::Located;
use causes::NoMemory;
use dwarf_entries::names::{FRAME_BASE, LOCATION};
use dwarf_entries::{Standing, attribute};
use dwarf_expr::{
    Base, Eval, FrameView, PiecePlace, eval, frame_base, is_location, names_operand_from,
};
use dwarf_info::{AttrValue, Sections5, Unit};
use dwarf_loc::Span;
use dwarf_scopes::{KnownLocations, known_location_in, no_locations};
use dwarf5_info::plain_expr;
use int_ops::wrap;
use std::alloc::Global;
use var_values::{Mark, Source, constant_source};
use wasm_bytes::Run;

/// What stands from an offset on.
fn behind(section: &[u8], at: usize) -> &[u8]
    ensures { result.now ≡ drop at section.now }
{
    if at < section.len() {
        &section[at..]
    } else {
        &[]
    }
}

/// So many bytes at the front, or all where there are fewer.
fn front(bytes: &[u8], len: usize) -> &[u8]
    ensures { result.now ≡ take len bytes.now }
{
    if len < bytes.len() {
        &bytes[..len]
    } else {
        bytes
    }
}

/// The bytes of a span of a section.
fn spanned<'a>(section: &'a [u8], span: Span) -> &'a [u8]
    ensures { result.now ≡ locations.spanned section.now span }
{
    front(behind(section, span.at), span.len)
}

/// The section that holds the location lists of a unit.
pub fn lists_of<'a>(sections: &Sections5<'a>, unit: &Unit<'a>) -> &'a [u8]
    ensures { result.now ≡ locations.lists_of sections.now unit.now }
{
    if unit.version == 5 {
        sections.loclists
    } else {
        sections.base.loc
    }
}

/// What an entry of a list of a section says; none where no list stands there.
fn said_by<'a>(section: &'a [u8], entry: Option<Option<Span>>) -> Located<'a>
    ensures { result ≡ locations.in_list section.now entry }
{
    match entry {
        Some(Some(span)) => Located::Expression(Run::new(spanned(section, span))),
        Some(None) => Located::NoEntry,
        None => Located::Unreadable,
    }
}

/// What the list at an offset says of an address.
fn in_list<'a>(
    sections: &Sections5<'a>,
    unit: &Unit<'a>,
    at: u32,
    address: u32,
    lists: &mut KnownLocations,
) -> Result<Located<'a>, NoMemory>
    requires right { AreFound sections.now address lists.old }
    ensures is { IfOk result (λ located. located
        ≡ locations.located_by sections.now address unit.now (Some (Offset at))) }
    ensures right { AreFound sections.now address lists.new }
{
    let Ok(entry) = known_location_in(sections, unit, at, address, lists) else {
        return Err(NoMemory);
    };
    Ok(said_by(lists_of(sections, unit), entry))
}

/// What the attribute of a name says of an address.
fn located<'r, 'a>(
    sections: &Sections5<'a>,
    address: u32,
    standing: &Standing<'r, 'a>,
    name: u64,
    lists: &mut KnownLocations,
) -> Result<Located<'a>, NoMemory>
    requires right { AreFound sections.now address lists.old }
    ensures is { IfOk result (λ located. located
        ≡ locations.located sections.now address standing.now name) }
    ensures right { AreFound sections.now address lists.new }
{
    match attribute(&standing.entry().attributes, name) {
        Some(AttrValue::Block(expr)) => Ok(Located::Expression(Run::new(expr.as_slice()))),
        Some(AttrValue::Offset(at)) => in_list(sections, standing.unit(), at, address, lists),
        _ => Ok(Located::Unsaid),
    }
}

/// Whether the offsets in an expression have 32 bits. A longer one takes more memory than there is.
fn is_short(expr: &[u8]) -> bool
    ensures { result ≡ true → length expr.now < 2 ^ 32 }
{
    expr.len() <= u32::MAX as usize
}

/// What an expression means as the place of a variable: one WebAssembly location alone holds its
/// address.
fn place_meant(expr: &[u8], view: &FrameView<'_>, base: Base) -> Eval
    requires { length expr.now < 2 ^ 32 }
    ensures { result ≡ locations.place_meant expr.now view.now base }
{
    match eval(expr, view, base) {
        Eval::Value(word) => {
            if is_location(expr) {
                Eval::Address(wrap(word))
            } else {
                Eval::Value(word)
            }
        }
        answer => answer,
    }
}

/// The frame base that an expression gives.
fn base_by(expr: &[u8], view: &FrameView<'_>) -> Result<Base, NoMemory>
    ensures { IfOk result (λ b. b ≡ base_given (Some expr.now) view.now) }
{
    if is_short(expr) {
        Ok(frame_base(expr, view))
    } else {
        Err(NoMemory)
    }
}

/// The frame base that an expression of a unit gives.
fn base_meant(
    alloc: Global,
    sections: &Sections5<'_>,
    unit: &Unit<'_>,
    view: &FrameView<'_>,
    expr: &[u8],
) -> Result<Base, NoMemory>
    ensures { IfOk result (λ b. b
        ≡ base_given (Some (plain_of sections.now unit.now expr.now)) view.now) }
{
    if unit.version == 5 {
        let plain = plain_expr(alloc, sections, unit, expr)?;
        base_by(plain.as_slice(), view)
    } else {
        base_by(expr, view)
    }
}

/// The frame base of a subprogram, or none.
pub fn base_in<'r, 'a>(
    alloc: Global,
    sections: &Sections5<'a>,
    address: u32,
    view: &FrameView<'_>,
    subprogram: &Option<Standing<'r, 'a>>,
) -> Result<Base, NoMemory>
    ensures { IfOk result (λ b. b
        ≡ locations.base_in sections.now address view.now subprogram.now) }
{
    let Some(subprogram) = subprogram else {
        return Ok(Base::Absent);
    };
    let mut lists = no_locations(alloc);
    let located = located(sections, address, subprogram, FRAME_BASE, &mut lists);
    drop(lists);
    let Ok(located) = located else {
        return Err(NoMemory);
    };
    match located {
        Located::Expression(expr) => {
            base_meant(alloc, sections, subprogram.unit(), view, expr.as_slice())
        }
        Located::Unsaid | Located::NoEntry | Located::Unreadable => Ok(Base::Absent),
    }
}

/// Where a value comes from by what its expression means.
fn source_meant(eval: Eval) -> Source
    ensures { result ≡ locations.source_of eval }
{
    match eval {
        Eval::Empty => Source::Lost(Mark::OptimisedOut),
        Eval::Value(word) => Source::Single(PiecePlace::Value(word)),
        Eval::Address(address) => Source::Single(PiecePlace::Address(address)),
        Eval::Pieces(pieces) => Source::Pieces(pieces),
        Eval::Missing => Source::Lost(Mark::NotRecorded),
        Eval::Outside(_) => Source::Lost(Mark::OutsideMemory),
        Eval::Unsupported { op: _, at: _ } => Source::Lost(Mark::UnsupportedExpression),
        Eval::BadExpr { at: _ } => Source::Lost(Mark::BadExpression),
        Eval::TooDeep => Source::Lost(Mark::ExpressionTooDeep),
    }
}

/// Whether an expression names an operand that a call under way has taken, which has so many left.
fn is_gone(left: Option<u32>, expr: &[u8]) -> bool
    requires { length expr.now < 2 ^ 32 }
    ensures { result ≡ locations.is_gone left expr.now }
{
    match left {
        Some(left) => names_operand_from(expr, u64::from(left)),
        None => false,
    }
}

/// Where a variable comes from by its expression, in a frame that has so many operands left.
fn source_in(
    left: Option<u32>,
    view: &FrameView<'_>,
    base: Base,
    expr: &[u8],
) -> Result<Source, NoMemory>
    ensures { IfOk result (λ source. source ≡ source_from left view.now base expr.now) }
{
    if !is_short(expr) {
        return Err(NoMemory);
    }
    if is_gone(left, expr) {
        return Ok(Source::Lost(Mark::OptimisedOut));
    }
    Ok(source_meant(place_meant(expr, view, base)))
}

/// Where a variable of a unit comes from by its expression, in a frame that has so many operands left.
fn source_by<'a>(
    alloc: Global,
    sections: &Sections5<'a>,
    unit: &Unit<'a>,
    left: Option<u32>,
    view: &FrameView<'_>,
    base: Base,
    expr: &[u8],
) -> Result<Source, NoMemory>
    ensures { IfOk result (λ source. source ≡ source_from left view.now base
        (plain_of sections.now unit.now expr.now)) }
{
    if unit.version == 5 {
        let plain = plain_expr(alloc, sections, unit, expr)?;
        source_in(left, view, base, plain.as_slice())
    } else {
        source_in(left, view, base, expr)
    }
}

/// Where a variable comes from in a frame.
#[tactic(auto, unfolding(crate::specs::Locations::variable_source))]
pub fn source_of<'r, 'a>(
    alloc: Global,
    frame: &VariableFrame<'_, '_, '_, '_, '_, 'a>,
    variable: &Standing<'r, 'a>,
    lists: &mut KnownLocations,
) -> Result<Source, NoMemory>
    requires right { AreFound frame.now.sections frame.now.address lists.old }
    ensures is { IfOk result (λ source. source
        ≡ locations.variable_source frame.now variable.now) }
    ensures right { AreFound frame.now.sections frame.now.address lists.new }
{
    let Ok(located) = located(frame.sections(), frame.address(), variable, LOCATION, lists) else {
        return Err(NoMemory);
    };
    match located {
        Located::Expression(expr) => source_by(
            alloc,
            frame.sections(),
            variable.unit(),
            frame.left(),
            frame.view(),
            frame.base(),
            expr.as_slice(),
        ),
        Located::NoEntry => Ok(Source::Lost(Mark::OptimisedOut)),
        Located::Unreadable => Ok(Source::Lost(Mark::BadExpression)),
        Located::Unsaid => Ok(constant_source(&variable.entry().attributes)),
    }
}

/// The same of one variable alone.
pub fn source_alone<'r, 'a>(
    alloc: Global,
    frame: &VariableFrame<'_, '_, '_, '_, '_, 'a>,
    variable: &Standing<'r, 'a>,
) -> Result<Source, NoMemory>
    ensures { IfOk result (λ source. source ≡ locations.variable_source frame.now variable.now) }
{
    let mut lists = no_locations(alloc);
    let source = source_of(alloc, frame, variable, &mut lists);
    drop(lists);
    source
}

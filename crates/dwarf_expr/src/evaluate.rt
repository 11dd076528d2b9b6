//! The meaning of an expression, operator by operator.

ghost use Rattle.std.specs.Prelude.{◌≡◌, ◌<◌, ◌^◌, [], Some, length};
ghost use Rattle.dwarf_expr.specs.Meaning.{of_parts, parts, meaning};
ghost use Rattle.dwarf_expr.specs.Decode.{operators};
ghost use Rattle.dwarf_expr.specs.FrameBase as definitions;
ghost use Rattle.dwarf_expr.specs.inner.Steps.{continued, progress};
ghost use Rattle.dwarf_expr.specs.declared.progress.Part.TheVariants as part;

use crate::answer::{Base, Eval};
use crate::decode::{ends_part, next_operator};
use crate::progress::Progress;
use crate::view::FrameView;
use int_ops::wrap;
use wasm_bytes::Reader;

fn result_of(expr: &[u8], view: &FrameView<'_>, base: Base) -> Result<Eval, Eval>
    requires short { length expr.now < 2 ^ 32 }
    ensures { result ≡ continued view.now base (length expr.now) (operators expr.now)
        (progress [] part.Empty []) }
{
    let mut reader = Reader::new(expr);
    let mut progress = Progress::new();
    'operators: while let Some(placed) = next_operator(&mut reader) {
        let is_last = ends_part(&reader);
        progress.advance(&placed, is_last, view, base)?;
    }
    progress.complete(expr.len() as u32)
}

/// What an expression means in a frame with this frame base (DWARF 4 sections 2.5 and 2.6).
#[tactic(auto, unfolding(crate::specs::Meaning::meaning))]
pub fn eval(expr: &[u8], view: &FrameView<'_>, base: Base) -> Eval
    requires short { length expr.now < 2 ^ 32 }
    ensures is { result ≡ meaning expr.now view.now base }
{
    if expr.is_empty() {
        return Eval::Empty;
    }
    match result_of(expr, view, base) {
        Ok(answer) => answer,
        Err(answer) => answer,
    }
}

/// The frame base that the `DW_AT_frame_base` of a subprogram gives (DWARF 4 section 3.3.5).
#[tactic(auto, unfolding(crate::specs::FrameBase::frame_base))]
pub fn frame_base(expr: &[u8], view: &FrameView<'_>) -> Base
    requires short { length expr.now < 2 ^ 32 }
    ensures is { result ≡ definitions.frame_base (Some expr.now) view.now }
{
    match eval(expr, view, Base::Absent) {
        Eval::Value(word) => Base::At(wrap(word)),
        Eval::Address(address) => Base::At(address),
        Eval::Missing => Base::Missing,
        _ => Base::Absent,
    }
}

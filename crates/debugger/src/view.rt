//! Frames as their variables see them.

ghost use Rattle.std.specs.Prelude.{◌≡◌, IfOk, option_map};
ghost use Rattle.debugger.specs.Variables as definitions;
ghost use Rattle.debugger.specs.calls.Parts as parts_there;

use causes::NoMemory;
use debug_frames::{Information, address_of};
use dump_format::Frame;
use dwarf_expr::FrameView;
use dwarf_types::TypedUnits;
use linear_memory::Memory;
use std::alloc::Global;
use var_eval::VariableFrame;
use wasm_syntax::{ModuleParts, Seen};

/// What expressions see of a frame, beside the recorded globals and memory.
pub fn view_of<'s>(
    frame: &'s Frame,
    globals: &'s [Seen],
    memory: Option<&'s Memory>,
) -> FrameView<'s>
    ensures { result ≡ parts_there.view_in frame.now globals.now
        (option_map (λ m. m.now.memory) memory.entry) }
{
    FrameView {
        locals: frame.locals.as_slice(),
        operands: frame.operands.as_slice(),
        globals,
        memory,
    }
}

/// The frame that is chosen by its index, and how many operands it shows.
#[derive(Clone, Copy)]
pub struct Chosen {
    pub index: u32,
    pub operands: u32,
}

impl Chosen {
    /// How many operands are left under the call where the frame stands; the innermost frame stands
    /// at none.
    fn left(self) -> Option<u32>
        ensures { result ≡ definitions.left_in self.index self.operands }
    {
        if self.index == 0 {
            None
        } else {
            Some(self.operands)
        }
    }
}

/// The chosen frame as its variables see it, with what is recorded of it.
pub fn looks_of<'s, 'k, 'w, 'v, 'a>(
    alloc: Global,
    information: &'s Information<'a>,
    parts: &ModuleParts,
    frame: &Frame,
    chosen: Chosen,
    view: &'w FrameView<'v>,
    types: TypedUnits<'s, 'k, 'a>,
) -> Result<VariableFrame<'s, 's, 'k, 'w, 'v, 'a>, NoMemory>
    requires { types ≡ information.now.units }
    ensures { IfOk result (λ looks. looks ≡ parts_there.looks_in information.now parts.now
        frame.now view.now (definitions.left_in chosen.index chosen.operands)) }
{
    let address = address_of(parts, frame);
    let Ok(subprogram) = information.subprogram_at(alloc, address) else {
        return Err(NoMemory);
    };
    VariableFrame::new(
        alloc,
        information.sections(),
        types,
        address,
        subprogram,
        view,
        chosen.left(),
    )
}

//! Frames as variables see them.

ghost use Rattle.std.specs.Prelude.{◌≡◌, IfOk};
ghost use Rattle.dwarf_scopes.specs.Scopes.{subprogram_at};
ghost use Rattle.var_eval.specs.Frames.{frame_of};
ghost use Rattle.var_eval.specs.Locations as locations;

use crate::locations::base_in;
use causes::NoMemory;
use dwarf_entries::Standing;
use dwarf_expr::{Base, FrameView};
use dwarf_info::{Sections5, Units};
use dwarf_types::TypedUnits;
use std::alloc::Global;
use std::marker::Model;

/// A frame as its variables see it: what the sections of its module say, the address of the code
/// where it stands, what is recorded of it, and how many operands a call under way there has left.
#[derive(Drop)]
pub struct VariableFrame<'s, 'u, 'k, 'w, 'v, 'a> {
    sections: &'s Sections5<'a>,
    types: TypedUnits<'u, 'k, 'a>,
    address: u32,
    // The one at the address.
    subprogram: Option<Standing<'u, 'a>>,
    view: &'w FrameView<'v>,
    left: Option<u32>,
    base: Base,
}

impl<'s, 'u, 'k, 'w, 'v, 'a> Model for VariableFrame<'s, 'u, 'k, 'w, 'v, 'a> {
    ghost use Rattle.std.specs.Prelude.{◌≡◌};
    ghost use Rattle.var_eval.specs.Frames.{Frame, frame_of};
    ghost use Rattle.var_eval.specs.Locations.{base_of};
    ghost use Rattle.dwarf_scopes.specs.Scopes.{subprogram_at};

    ghost Value = { Frame };

    ghost view = { λ f. frame_of f.sections.now f.types f.address f.view.now f.left };

    ghost invariant = { λ f. (f.base
        ≡ base_of (frame_of f.sections.now f.types f.address f.view.now f.left))
        × (f.subprogram ≡ subprogram_at f.sections.now f.types f.address) };
}

impl<'s, 'u, 'k, 'w, 'v, 'a> VariableFrame<'s, 'u, 'k, 'w, 'v, 'a> {
    /// By the subprogram at the address.
    #[tactic(auto, unfolding(crate::specs::Locations::base_of))]
    pub fn new(
        alloc: Global,
        sections: &'s Sections5<'a>,
        types: TypedUnits<'u, 'k, 'a>,
        address: u32,
        subprogram: Option<Standing<'u, 'a>>,
        view: &'w FrameView<'v>,
        left: Option<u32>,
    ) -> Result<Self, NoMemory>
        requires { subprogram ≡ subprogram_at sections.now types address }
        ensures { IfOk result (λ f. f ≡ frame_of sections.now types.entry address view.now left) }
    {
        let Ok(base) = base_in(alloc, sections, address, view, &subprogram) else {
            return Err(NoMemory);
        };
        Ok(VariableFrame {
            sections,
            types,
            address,
            subprogram,
            view,
            left,
            base,
        })
    }

    pub fn sections(&self) -> &'s Sections5<'a>
        ensures { result.now ≡ self.now.sections }
    {
        self.sections
    }

    pub fn units(&self) -> &'u Units<'a>
        ensures { result.now ≡ self.now.units }
    {
        self.types.units()
    }

    /// The units, with what is known of their types.
    pub fn types(&self) -> &TypedUnits<'u, 'k, 'a>
        ensures { result.now ≡ self.now.units }
    {
        &self.types
    }

    /// The subprogram at its address.
    pub fn subprogram(&self) -> &Option<Standing<'u, 'a>>
        ensures { result.now ≡ subprogram_at self.now.sections self.now.units self.now.address }
    {
        &self.subprogram
    }

    /// Of the code where it stands.
    pub fn address(&self) -> u32
        ensures { result ≡ self.now.address }
    {
        self.address
    }

    pub fn view(&self) -> &'w FrameView<'v>
        ensures { result.now ≡ self.now.view }
    {
        self.view
    }

    /// How many operands a call under way has left, where one is.
    pub fn left(&self) -> Option<u32>
        ensures { result ≡ self.now.left }
    {
        self.left
    }

    /// The frame base (DWARF 4 section 3.3.5).
    pub fn base(&self) -> Base
        ensures { result ≡ locations.base_of self.now }
    {
        self.base
    }
}

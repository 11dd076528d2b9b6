//! What the bytes of a module say of its source.

ghost use Rattle.std.specs.Prelude.{◌≡◌, ◌≤◌, length, IfOk, Some};
ghost use Rattle.dwarf_info.specs.Sections.{IsReadable5, greatest_section};
ghost use Rattle.dwarf_scopes.specs.Scopes.{subprogram_at, inlined_at};
ghost use Rattle.debug_frames.specs.Information as definitions;
ghost use Rattle.debug_frames.specs.Programs.{program_there};
ghost use Rattle.debug_frames.specs.calls.Kept.{programs_of, IsKept};
ghost use Rattle.debug_frames.specs.inner.Stores.{is_read};

use crate::programs::Programs;
use crate::sections::sections_of;
use causes::NoMemory;
use dwarf_entries::Standing;
use dwarf_info::{Sections5, Units};
use dwarf_scopes::{Found, SubprogramTable, found_at, subprogram_at};
use dwarf5_info::read_units5;
use std::alloc::Global;
use std::marker::Model;
use wasm_decode::{Names, function_names};
use wasm_syntax::Module;

/// The debugging information of a module, and the names that its `name` section gives to functions.
/// Texts borrow the module's bytes.
#[derive(Drop)]
pub struct Information<'a> {
    sections: Sections5<'a>,
    // The units of versions 4 and 5.
    units: Units<'a>,
    // Gathered where they pay.
    subprograms: Option<SubprogramTable>,
    // The line programs that the units name.
    programs: Programs<'a>,
    names: Names,
}

impl<'a> Model for Information<'a> {
    ghost use Rattle.std.specs.Prelude.{◌≡◌, IfSome};
    ghost use Rattle.dwarf_scopes.specs.calls.Tabled.{IsTable};
    ghost use Rattle.debug_frames.specs.Information.{SourceInformation};
    ghost use Rattle.debug_frames.specs.calls.Kept.{programs_of};

    ghost Value = { SourceInformation };

    ghost view = { λ x. record { sections = x.sections; units = x.units; names = x.names } };

    ghost invariant = { λ x. (x.programs ≡ programs_of x.sections x.units)
        × IfSome x.subprograms (IsTable x.units) };
}

/// What sections of debugging information say, beside names of functions.
fn said<'a>(
    alloc: Global,
    sections: Sections5<'a>,
    names: Names,
) -> Result<Information<'a>, NoMemory>
    requires { IsReadable5 sections }
    ensures { IfOk result (λ x. x ≡ definitions.said sections.entry names) }
{
    match read_units5(alloc, &sections) {
        Ok(units) => match Programs::of(alloc, &sections, units.as_slice()) {
            Ok(programs) => Ok(Information {
                sections,
                units,
                subprograms: None,
                programs,
                names,
            }),
            Err(NoMemory) => Err(NoMemory),
        },
        Err(NoMemory) => Err(NoMemory),
    }
}

impl<'a> Information<'a> {
    /// What the bytes of a module say, which was decoded from them: each unit and each line program
    /// is read once here.
    #[tactic(auto, unfolding(crate::specs::Information::information))]
    pub fn of(alloc: Global, bytes: &'a [u8], module_: &Module) -> Result<Self, NoMemory>
        requires { length bytes.now ≤ greatest_section }
        ensures { IfOk result (λ x. x ≡ definitions.information bytes.now module_.now.customs) }
    {
        let sections = sections_of(bytes, module_.parts().customs.as_slice());
        match function_names(alloc, bytes, module_) {
            Ok(names) => said(alloc, sections, names),
            Err(NoMemory) => Err(NoMemory),
        }
    }

    /// Gathers the subprograms, so that each look-up behind it takes no time linear in the entries.
    pub fn gather(&mut self, alloc: Global) -> Result<(), NoMemory>
        ensures { self.new ≡ self.old }
    {
        if self.subprograms.is_some() {
            return Ok(());
        }
        match SubprogramTable::of(alloc, self.units.as_slice()) {
            Ok(table) => {
                self.subprograms = Some(table);
                Ok(())
            }
            Err(NoMemory) => Err(NoMemory),
        }
    }

    /// The subprogram at an address.
    pub fn subprogram_at<'r>(
        &'r self,
        alloc: Global,
        address: u32,
    ) -> Result<Option<Standing<'r, 'a>>, NoMemory>
        ensures { IfOk result (λ x. x
            ≡ subprogram_at self.now.sections self.now.units address) }
    {
        let units = self.units.as_slice();
        match &self.subprograms {
            Some(table) => table.at(alloc, &self.sections, units, address),
            None => subprogram_at(alloc, &self.sections, units, address),
        }
    }

    /// What stands at an address.
    pub(crate) fn found_at<'r>(
        &'r self,
        alloc: Global,
        address: u32,
    ) -> Result<Found<'r, 'a>, NoMemory>
        ensures subprogram { IfOk result (λ x. x.subprogram
            ≡ subprogram_at self.now.sections self.now.units address) }
        ensures inlined { IfOk result (λ x. x.inlined
            ≡ inlined_at self.now.sections self.now.units address) }
    {
        let units = self.units.as_slice();
        match &self.subprograms {
            Some(table) => table.find(alloc, &self.sections, units, address),
            None => found_at(alloc, &self.sections, units, address),
        }
    }

    pub fn sections(&self) -> &Sections5<'a>
        ensures { result.now ≡ self.now.sections }
    {
        &self.sections
    }

    /// The units of versions 4 and 5.
    pub fn units(&self) -> &Units<'a>
        ensures { result.now ≡ self.now.units }
    {
        &self.units
    }

    /// The line programs that the units name, each once.
    pub fn programs(&self) -> &Programs<'a>
        ensures { result.now ≡ programs_of self.now.sections self.now.units }
    {
        &self.programs
    }

    /// The names that the `name` section gives to functions.
    pub(crate) fn names(&self) -> &Names
        ensures { result.now ≡ self.now.names }
    {
        &self.names
    }

    /// What stands at an offset of `.debug_line` that a unit names can be read.
    pub(crate) fn is_read(&self, at: u32) -> bool
        requires { IsKept self.now.sections self.now.units (Some at) }
        ensures { result ≡ is_read (program_there self.now.sections at) }
    {
        self.programs().is_read(at).unwrap()
    }
}

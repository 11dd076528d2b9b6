//! What is known of the code addresses of frames.

ghost use Rattle.std.specs.Prelude.{◌≡◌, IfOk, IfSome, option_copied, option_map};
ghost use Rattle.debug_frames.specs.Frames as definitions;
ghost use Rattle.debug_frames.specs.Programs.{located_at};
ghost use Rattle.debug_frames.specs.inner.Paths.{row_place};
ghost use Rattle.debug_frames.specs.inner.Resolving.{resolved_at};

use crate::information::Information;
use crate::rows::RowPlace;
use causes::NoMemory;
use dwarf_entries::{Standing, name_of};
use pm_text::Items;
use std::alloc::Global;
use std::collections::BTreeMap;
use std::marker::Model;

/// What is known of a code address.
#[derive(Drop)]
pub struct Resolved<'r, 'a> {
    pub address: u32,
    /// The name of the subprogram there.
    pub name: Option<&'a [u8]>,
    /// The inlined subroutines that hold it, the innermost first.
    pub inlined: Items<Standing<'r, 'a>>,
    /// The place of its row.
    pub place: Option<RowPlace<'a>>,
}

impl<'r, 'a> Model for Resolved<'r, 'a> {
    ghost use Rattle.std.specs.Prelude.{option_copied};
    ghost use Rattle.debug_frames.specs.inner.Resolving.{Resolved};

    ghost Value = { Resolved };

    ghost view = { λ x. record {
      address = x.address;
      name = option_copied x.name;
      inlined = x.inlined;
      place = x.place;
    } };
}

/// The name of a subprogram, if there is one.
fn name_within<'r, 'a>(
    information: &'r Information<'a>,
    subprogram: &Option<Standing<'r, 'a>>,
) -> Option<&'a [u8]>
    ensures { option_copied result ≡ definitions.name_within information.now.units subprogram.now }
{
    match subprogram {
        Some(subprogram) => name_of(information.units(), &subprogram.entry().attributes),
        None => None,
    }
}

/// The place of the row of an address.
fn place_at<'a>(
    alloc: Global,
    information: &Information<'a>,
    address: u32,
) -> Result<Option<RowPlace<'a>>, NoMemory>
    ensures { IfOk result (λ place. place ≡ option_map row_place
        (located_at information.now.sections information.now.units address)) }
{
    information.programs().place(alloc, address)
}

impl<'r, 'a> Resolved<'r, 'a> {
    /// What is known of an address, by the subprograms and the line programs of all units.
    pub fn of(
        alloc: Global,
        information: &'r Information<'a>,
        address: u32,
    ) -> Result<Self, NoMemory>
        ensures { IfOk result (λ x. x ≡ resolved_at information.now address) }
    {
        let place = place_at(alloc, information, address)?;
        match information.found_at(alloc, address) {
            Ok(found) => Ok(Resolved {
                address,
                name: name_within(information, &found.subprogram),
                inlined: found.inlined,
                place,
            }),
            Err(NoMemory) => Err(NoMemory),
        }
    }
}

/// What the bytes of a module say, with what was found of addresses before. Contracts see the
/// first.
#[derive(Drop)]
pub struct Symbolizer<'r, 'a> {
    information: &'r Information<'a>,
    known: BTreeMap<u32, Resolved<'r, 'a>>,
}

impl<'r, 'a> Model for Symbolizer<'r, 'a> {
    ghost use Rattle.std.specs.Prelude.{◌≡◌, ℕ, IfSome};
    ghost use Rattle.std.specs.Ordering.{nat_cmp};
    ghost use Rattle.std.specs.BTreeMap.{get};
    ghost use Rattle.debug_frames.specs.Information.{SourceInformation};
    ghost use Rattle.debug_frames.specs.calls.Kept.{programs_of};
    ghost use Rattle.debug_frames.specs.inner.Resolving.{resolved_at};

    ghost Value = { SourceInformation };

    ghost view = { λ s. s.information.now };

    ghost invariant = { λ s. (q : ℕ)
        → IfSome (get nat_cmp s.known q) (λ x. x ≡ resolved_at s.information.now q) };
}

impl<'r, 'a> Symbolizer<'r, 'a> {
    /// Nothing is known yet.
    pub fn new(alloc: Global, information: &'r Information<'a>) -> Self
        ensures { result ≡ information.now }
    {
        Symbolizer {
            information,
            known: BTreeMap::new(alloc),
        }
    }

    pub(crate) fn information(&self) -> &'r Information<'a>
        ensures { result.now ≡ self.now }
    {
        self.information
    }

    /// What is known of an address, where it was asked for before.
    pub(crate) fn get(&self, address: u32) -> Option<&Resolved<'r, 'a>>
        ensures { IfSome result (λ x. x.now ≡ resolved_at self.now address) }
    {
        self.known.get(&address)
    }

    /// Keeps what is known of an address.
    pub(crate) fn keep(&mut self, resolved: Resolved<'r, 'a>) -> Result<(), NoMemory>
        requires { resolved ≡ resolved_at self.old resolved.address }
        ensures { self.new ≡ self.old }
    {
        match self.known.insert(resolved.address, resolved) {
            Ok(_) => Ok(()),
            Err(_) => Err(NoMemory),
        }
    }
}

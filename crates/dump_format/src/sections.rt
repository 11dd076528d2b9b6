//! The sections of a dump.

ghost use Rattle.std.specs.Prelude.{◌≡◌, OnOk};
ghost use Rattle.wasm_bytes.specs.Place.{Moves, Stays};
ghost use Rattle.wasm_bytes.specs.Reading.{whole};
ghost use Rattle.wasm_bytes.specs.calls.Answers.{Gives, GivesWhole, with_state};
ghost use Rattle.dump_format.specs.Sections.{may_follow};
ghost use Rattle.wasm_bytes.specs.Tables.{header};
ghost use Rattle.dump_format.specs.inner.Gathering.{custom_gathering, contents_gathering, section_step, gathered_item};
ghost use Rattle.dump_format.specs.inner.Gathering.{nothing_gathered};

use crate::dump::Instance;
use crate::gathered::Gathered;
use crate::lists::{Pages, memory_segments, module_name, module_names};
use crate::noted::{GlobalValues, stack};
use pm_text::Items;
use std::alloc::Global;
use wasm_bytes::{Gather, Item, ItemFault, Reader, gather_to_end, noted_vector};

/// The magic and the version of a module (Core 5.5.15).
const HEADER: [u8; 8] = [0x00, 0x61, 0x73, 0x6d, 0x01, 0x00, 0x00, 0x00];

impl<'a> Gathered<'a> {
    /// Ids other than 0 rise strictly, up to 11.
    fn may_be_next(&self, id: u8) -> bool
        ensures { result ≡ may_follow self.now.last id }
    {
        id == 0 || (self.last < id && id <= 11)
    }

    /// A custom section, behind its name.
    #[tactic(auto, unfolding(crate::specs::inner::Gathering::custom_gathering))]
    fn custom(
        &mut self,
        alloc: Global,
        name: &str,
        reader: &mut Reader<'a>,
    ) -> Result<(), ItemFault>
        ensures item { Gives (with_state self.new result) reader.new
            (custom_gathering self.old name.now reader.old) }
    {
        if name == "core" {
            let name = module_name(alloc, reader)?;
            self.name.add(name);
        } else if name == "coremodules" {
            let names = module_names(alloc, reader)?;
            self.modules.add(names);
        } else if name == "coreinstances" {
            let instances = Items::<Instance>::read(alloc, reader)?;
            self.instances.add(instances);
        } else if name == "corestack" {
            let noted = stack(alloc, reader)?;
            self.frames.add(noted.value);
            self.first = self.first.or(noted.float);
        } else {
            reader.rest();
        }
        Ok(())
    }

    /// The contents of a section of this id.
    #[tactic(auto, unfolding(crate::specs::inner::Gathering::contents_gathering))]
    fn contents(&mut self, alloc: Global, id: u8, reader: &mut Reader<'a>) -> Result<(), ItemFault>
        ensures item { Gives (with_state self.new result) reader.new
            (contents_gathering self.old id reader.old) }
    {
        match id {
            0 => {
                let name = reader.name()?;
                return self.custom(alloc, name, reader);
            }
            5 => {
                let memories = Items::<Pages>::read(alloc, reader)?;
                self.memories.add(memories);
            }
            6 => {
                let noted = noted_vector::<_, GlobalValues>(alloc, reader)?;
                self.globals.add(noted.value);
                self.first = self.first.or(noted.float);
            }
            11 => {
                let segments = memory_segments(alloc, self.memory(), reader)?;
                self.segments.add(segments);
            }
            _ => {
                reader.rest();
            }
        }
        self.last = id;
        Ok(())
    }
}

impl<'a> Gather<Reader<'a>> for Gathered<'a> {
    ghost step = { section_step };

    #[tactic(auto, unfolding(wasm_bytes::specs::Reading::choose, crate::specs::inner::Gathering::section_step))]
    fn take(&mut self, alloc: Global, reader: &mut Reader<'a>) -> Result<(), ItemFault> {
        let at = reader.at();
        let id = reader.byte()?;
        if !self.may_be_next(id) {
            return Err(ItemFault::At(at));
        }
        let mut inner = reader.open()?;
        self.contents(alloc, id, &mut inner)?;
        inner.end()?;
        Ok(())
    }
}

/// Gathers all sections of an input. A section `core` is due.
#[tactic(auto, unfolding(crate::specs::inner::Gathering::all_gathered, crate::specs::inner::Gathering::gathered_item))]
pub fn gather<'a>(
    alloc: Global,
    gathered: &mut Gathered<'a>,
    bytes: &'a [u8],
) -> Result<(), ItemFault>
    requires { gathered.old ≡ nothing_gathered }
    ensures { GivesWhole (with_state gathered.new result) (whole gathered_item bytes.now) }
{
    let mut reader = Reader::new(bytes);
    reader.bytes(&HEADER)?;
    gather_to_end(alloc, gathered, &mut reader)?;
    if !gathered.name.is_found() {
        return Err(ItemFault::At(reader.at()));
    }
    reader.end()?;
    Ok(())
}

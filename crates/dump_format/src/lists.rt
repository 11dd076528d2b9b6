//! Vectors of a dump that hold no values.

ghost use Rattle.std.specs.Prelude.{◌≡◌, ◌+◌, ◌*◌, nat_le, OnOk};
ghost use Rattle.wasm_bytes.specs.Place.{Moves};
ghost use Rattle.wasm_bytes.specs.calls.Answers.{Gives};
ghost use Rattle.dump_format.specs.Form.{module_item, instance_item, limits_item, segment_item};
ghost use Rattle.dump_format.specs.inner.Gathering.{name_step, module_names, segment_step, memory_segments};

use crate::dump::{Instance, Segment, Segments, Texts};
use pm_text::{Items, Text};
use std::alloc::Global;
use std::marker::Model;
use wasm_bytes::{Gather, Item, ItemFault, Reader, gather_count};

/// A module or the program: a zero byte and its name.
#[tactic(auto, unfolding(crate::specs::Form::module_item))]
pub fn module_name<'a>(alloc: Global, reader: &mut Reader<'a>) -> Result<Text, ItemFault>
    ensures item { Gives result reader.new (module_item reader.old) }
    ensures moves { OnOk result (Moves reader.old reader.new) }
{
    reader.fixed(0x00)?;
    let name = reader.name()?;
    Ok(Text::from_str(alloc, name)?)
}

/// The names of modules.
#[derive(Drop)]
pub struct ModuleNames {
    pub names: Texts,
}

impl<'a> Gather<Reader<'a>> for ModuleNames {
    ghost step = { name_step };

    #[tactic(auto, unfolding(crate::specs::inner::Gathering::name_step))]
    fn take(&mut self, alloc: Global, reader: &mut Reader<'a>) -> Result<(), ItemFault> {
        self.names.push(module_name(alloc, reader)?)?;
        Ok(())
    }
}

/// A vector of modules.
#[tactic(auto, unfolding(crate::specs::inner::Gathering::module_names))]
pub fn module_names<'a>(alloc: Global, reader: &mut Reader<'a>) -> Result<Texts, ItemFault>
    ensures item { Gives result reader.new (module_names reader.old) }
    ensures moves { OnOk result (Moves reader.old reader.new) }
{
    let count = reader.u32()?;
    let mut list = ModuleNames {
        names: Items::new(alloc),
    };
    gather_count(alloc, count, &mut list, reader)?;
    Ok(list.names)
}

impl<'a> Item<Reader<'a>> for Instance {
    type Value = Instance;

    ghost item = { instance_item };

    #[tactic(auto, unfolding(crate::specs::Form::instance_item))]
    fn read(alloc: Global, reader: &mut Reader<'a>) -> Result<Instance, ItemFault> {
        reader.fixed(0x00)?;
        let module = reader.u32()?;
        let memories = Items::<u32>::read(alloc, reader)?;
        let globals = Items::<u32>::read(alloc, reader)?;
        Ok(Instance {
            module,
            memories,
            globals,
        })
    }
}

/// The size of a memory in pages of 65,536 bytes, which contracts see as the number.
#[derive(Drop)]
pub struct Pages {
    count: u32,
}

impl Model for Pages {
    ghost use Rattle.std.specs.Prelude.{ℕ};

    ghost Value = { ℕ };

    ghost view = { λ p. p.count };
}

impl Pages {
    pub fn count(&self) -> u32
        ensures { result ≡ self.now }
    {
        self.count
    }
}

/// The least size of a memory; the greatest one is passed over (Core 5.3.4).
impl<'a> Item<Reader<'a>> for Pages {
    type Value = Pages;

    ghost item = { limits_item };

    #[tactic(auto, unfolding(wasm_bytes::specs::Reading::choose, crate::specs::Form::limits_item))]
    fn read(_alloc: Global, reader: &mut Reader<'a>) -> Result<Pages, ItemFault> {
        let at = reader.at();
        match reader.byte()? {
            0x00 => Ok(Pages {
                count: reader.u32()?,
            }),
            0x01 => {
                let count = reader.u32()?;
                reader.u32()?;
                Ok(Pages { count })
            }
            _ => Err(ItemFault::At(at)),
        }
    }
}

/// The segments of a memory.
#[derive(Drop)]
pub struct MemorySegments<'a> {
    /// The size of the memory in pages, where there is one.
    pub memory: Option<u32>,
    pub segments: Segments<'a>,
}

/// Whether so many bytes at an address end at or before the end of the memory.
fn has_room(pages: u32, address: u32, len: usize) -> bool
    ensures { result ≡ nat_le (address + len) (65536 * pages) }
{
    let size = 65_536 * u64::from(pages);
    let address = u64::from(address);
    address <= size && len as u64 <= size - address
}

impl<'a> Gather<Reader<'a>> for MemorySegments<'a> {
    ghost step = { segment_step };

    #[tactic(auto, unfolding(crate::specs::Form::segment_item, crate::specs::inner::Gathering::segment_step))]
    fn take(&mut self, _alloc: Global, reader: &mut Reader<'a>) -> Result<(), ItemFault> {
        let start = reader.at();
        let index = reader.u32()?;
        let Some(pages) = self.memory else {
            return Err(ItemFault::At(start));
        };
        if index != 0 {
            return Err(ItemFault::At(start));
        }
        reader.fixed(0x41)?;
        let at = reader.s32()?.cast_unsigned();
        reader.fixed(0x0b)?;
        let bytes = reader.sized_run()?;
        if !has_room(pages, at, bytes.len()) {
            return Err(ItemFault::At(start));
        }
        self.segments.push(Segment { at, bytes })?;
        Ok(())
    }
}

/// A vector of segments of a memory, whose size in pages is given where it is there.
#[tactic(auto, unfolding(crate::specs::inner::Gathering::memory_segments))]
pub fn memory_segments<'a>(
    alloc: Global,
    memory: Option<u32>,
    reader: &mut Reader<'a>,
) -> Result<Segments<'a>, ItemFault>
    ensures item { Gives result reader.new (memory_segments memory reader.old) }
    ensures moves { OnOk result (Moves reader.old reader.new) }
{
    let count = reader.u32()?;
    let mut list = MemorySegments {
        memory,
        segments: Items::new(alloc),
    };
    gather_count(alloc, count, &mut list, reader)?;
    Ok(list.segments)
}

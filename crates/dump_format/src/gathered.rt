//! What is gathered from the sections of a dump.

ghost use Rattle.std.specs.Prelude.{◌≡◌, [], length};
ghost use Rattle.dump_format.specs.Judged.{over};
ghost use Rattle.wasm_bytes.specs.Refusals.{unless_refused};
ghost use Rattle.dump_format.specs.inner.Gathering.{nothing_gathered, first_memory, found_or, repeated_in, too_many_in};
ghost use Rattle.dump_format.specs.inner.Gathering.{refusal_in, dump_in};

use crate::dump::{Dump, Frames, Instances, Segments, Texts, Values};
use crate::fault::{DumpFault, DumpPart};
use crate::found::Found;
use crate::lists::Pages;
use pm_text::{Items, Text};
use std::alloc::Global;
use wasm_syntax::Quantity;

/// What the sections up to a place hold.
#[derive(Drop)]
pub struct Gathered<'a> {
    /// The last id other than 0, or 0.
    pub last: u8,
    /// The offset of the first float.
    pub first: Option<usize>,
    pub name: Found<Text>,
    pub modules: Found<Texts>,
    pub instances: Found<Instances>,
    pub frames: Found<Frames>,
    pub memories: Found<Items<Pages>>,
    pub globals: Found<Values>,
    pub segments: Found<Segments<'a>>,
}

/// A count that passes its greatest number.
fn over(what: Quantity, count: u64) -> Option<DumpFault>
    ensures { result ≡ over what count }
{
    if count > what.limit() {
        Some(DumpFault::Limit { what, count })
    } else {
        None
    }
}

impl<'a> Gathered<'a> {
    /// Nothing was read.
    #[tactic(auto, unfolding(crate::specs::inner::Gathering::nothing_gathered))]
    pub fn new() -> Self
        ensures { result ≡ nothing_gathered }
    {
        Gathered {
            last: 0,
            first: None,
            name: Found::Absent,
            modules: Found::Absent,
            instances: Found::Absent,
            frames: Found::Absent,
            memories: Found::Absent,
            globals: Found::Absent,
            segments: Found::Absent,
        }
    }

    /// The size of the first memory in pages, where it was read.
    pub fn memory(&self) -> Option<u32>
        ensures { result ≡ first_memory self.now.memories }
    {
        match &self.memories {
            Found::Once(list) => match list.as_slice().first() {
                Some(pages) => Some(pages.count()),
                None => None,
            },
            Found::Absent | Found::Repeated => None,
        }
    }

    fn memory_count(&self) -> usize
        ensures { result ≡ length (found_or [] self.now.memories) }
    {
        match &self.memories {
            Found::Once(list) => list.len(),
            Found::Absent | Found::Repeated => 0,
        }
    }

    fn frame_count(&self) -> usize
        ensures { result ≡ length (found_or [] self.now.frames) }
    {
        match &self.frames {
            Found::Once(frames) => frames.len(),
            Found::Absent | Found::Repeated => 0,
        }
    }

    /// The first part that stands more than once.
    #[tactic(auto, unfolding(crate::specs::inner::Gathering::repeated_in))]
    fn repeated(&self) -> Option<DumpPart>
        ensures { result ≡ repeated_in self.now }
    {
        if self.name.is_repeated() {
            Some(DumpPart::Core)
        } else if self.modules.is_repeated() {
            Some(DumpPart::CoreModules)
        } else if self.instances.is_repeated() {
            Some(DumpPart::CoreInstances)
        } else if self.frames.is_repeated() {
            Some(DumpPart::CoreStack)
        } else if self.memory_count() > 1 {
            Some(DumpPart::Memory)
        } else {
            None
        }
    }

    /// The limits that the sections pass.
    fn too_many(&self) -> Option<DumpFault>
        ensures { result ≡ too_many_in self.now }
    {
        let pages = self.memory().map_or(0, u64::from);
        match over(Quantity::DumpPages, pages) {
            Some(fault) => Some(fault),
            None => over(Quantity::DumpFrames, self.frame_count() as u64),
        }
    }

    /// Why the sections make no dump.
    #[tactic(auto, unfolding(crate::specs::inner::Gathering::refusal_in))]
    fn refusal(&self) -> Option<DumpFault>
        ensures { result ≡ refusal_in self.now }
    {
        if let Some(at) = self.first {
            return Some(DumpFault::FloatValue { at });
        }
        if let Some(part) = self.repeated() {
            return Some(DumpFault::Several { part });
        }
        self.too_many()
    }

    /// The dump that the sections make, or why they make none.
    #[tactic(auto, unfolding(crate::specs::inner::Gathering::dump_in))]
    pub fn judged(self, alloc: Global) -> Result<Dump<'a>, DumpFault>
        ensures { result ≡ unless_refused (refusal_in self.entry) (dump_in self.entry) }
    {
        match self.refusal() {
            Some(fault) => {
                drop(self);
                Err(fault)
            }
            None => {
                let memory = self.memory();
                Ok(Dump {
                    name: self.name.or(Text::new(alloc)),
                    modules: self.modules.or(Items::new(alloc)),
                    instances: self.instances.or(Items::new(alloc)),
                    frames: self.frames.or(Items::new(alloc)),
                    memory,
                    globals: self.globals.or(Items::new(alloc)),
                    segments: self.segments.or(Items::new(alloc)),
                })
            }
        }
    }
}

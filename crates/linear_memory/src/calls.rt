//! Calls of a memory one after another.

ghost use Rattle.std.specs.Prelude.{◌≡◌, IfOk};
ghost use Rattle.linear_memory.specs.calls.Width.{width_bytes};
ghost use Rattle.linear_memory.specs.calls.Calls.{Does, Runs, Shows};

use crate::{GrowAnswer, Memory, StoreFault};
use causes::NoMemory;
use std::alloc::Global;

/// How many bytes a load or a store moves.
#[derive(Clone, Copy)]
pub enum Width {
    One,
    Two,
    Four,
    Eight,
}

impl Width {
    /// The number of bytes.
    pub fn bytes(self) -> u32
        ensures { result ≡ width_bytes self }
    {
        match self {
            Width::One => 1,
            Width::Two => 2,
            Width::Four => 4,
            Width::Eight => 8,
        }
    }
}

/// A call of a memory. Places and lengths are in bytes, counts and indices in pages.
#[derive(Drop)]
pub enum Call {
    Size,
    Load { at: u64, width: Width },
    Store { at: u64, width: Width, value: u64 },
    Write { at: u64, bytes: Vec<u8> },
    Fill { at: u64, byte: u8, len: u64 },
    Copy { to: u64, from: u64, len: u64 },
    Grow(u32),
    Page(u32),
    /// Goes on with a copy in the memory's place.
    CopyOf,
}

/// What a call answers.
#[derive(Drop)]
pub enum Answer {
    Size(u32),
    Loaded(Option<u64>),
    Stored(Result<(), StoreFault>),
    Grew(GrowAnswer),
    /// The bytes of a page that is made, or None where the page is not made or the memory has no
    /// such page.
    Page(Option<Vec<u8>>),
    Copied,
}

/// Makes the calls one after another. The answers are those of the definition, whatever the list.
pub fn run(alloc: Global, memory: &mut Memory, calls: &[Call]) -> Result<Vec<Answer>, NoMemory>
    ensures { IfOk result (λ answers. Runs memory.old calls.now answers.items memory.new) }
{
    let mut answers = Vec::new(alloc);
    for call in calls {
        let answer = make(alloc, memory, call)?;
        answers.push(answer)?;
    }
    Ok(answers)
}

fn make(alloc: Global, memory: &mut Memory, call: &Call) -> Result<Answer, NoMemory>
    ensures { IfOk result (λ answer. Does memory.old call.now answer memory.new) }
{
    match call {
        Call::Size => Ok(Answer::Size(memory.size())),
        Call::Load { at, width } => Ok(Answer::Loaded(memory.load(*at, width.bytes()))),
        Call::Store { at, width, value } => {
            Ok(Answer::Stored(memory.store(*at, width.bytes(), *value)))
        }
        Call::Write { at, bytes } => Ok(Answer::Stored(memory.write(*at, bytes))),
        Call::Fill { at, byte, len } => Ok(Answer::Stored(memory.fill(*at, *byte, *len))),
        Call::Copy { to, from, len } => Ok(Answer::Stored(memory.copy(*to, *from, *len))),
        Call::Grow(count) => Ok(Answer::Grew(memory.grow(*count))),
        Call::Page(index) => Ok(Answer::Page(page_of(alloc, memory, *index)?)),
        Call::CopyOf => {
            *memory = memory.copy_of()?;
            Ok(Answer::Copied)
        }
    }
}

fn page_of(alloc: Global, memory: &Memory, index: u32) -> Result<Option<Vec<u8>>, NoMemory>
    ensures { IfOk result (Shows memory.now index) }
{
    if index >= memory.size() {
        return Ok(None);
    }
    match memory.page(index) {
        Some(bytes) => Ok(Some(Vec::from_slice(alloc, bytes)?)),
        None => Ok(None),
    }
}

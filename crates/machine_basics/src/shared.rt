//! What the frames of an instance share, as far as instructions change it.

ghost use Rattle.std.specs.Prelude.{◌≡◌, slice_get, slice_set, IfOk};

use causes::NoMemory;
use linear_memory::Memory;
use std::alloc::Global;
use std::marker::Model;
use wasm_syntax::Value;

/// The values of globals, which contracts see as a list.
#[derive(Drop)]
pub struct Globals {
    items: Vec<Value>,
}

impl Model for Globals {
    ghost use Rattle.std.specs.Prelude.{List};
    ghost use Rattle.wasm_syntax.specs.declared.value.Value.{Value as Val};

    ghost Value = { List Val };

    ghost view = { λ s. s.items.items };
}

impl Globals {
    /// The values in a vector, which is moved and not copied.
    pub fn from_vec(items: Vec<Value>) -> Globals
        ensures { result ≡ items.items }
    {
        Globals { items }
    }

    /// Values of their own, which are the same.
    pub fn copy_of(&self, alloc: Global) -> Result<Globals, NoMemory>
        ensures { IfOk result (λ copy. copy ≡ self.now) }
    {
        let items = Vec::from_slice(alloc, self.items.as_slice())?;
        Ok(Globals { items })
    }

    /// The values, by their indices.
    pub fn as_slice(&self) -> &[Value]
        ensures { result.now ≡ self.now }
    {
        self.items.as_slice()
    }

    /// The value of a global, or None where there are not so many.
    #[inline(always)]
    pub fn get(&self, index: usize) -> Option<Value>
        ensures { result ≡ slice_get self.now index }
    {
        self.items.get(index).copied()
    }

    /// Sets a global, if there is one of this index.
    #[inline(always)]
    pub fn set(&mut self, index: usize, value: Value)
        ensures { self.new ≡ slice_set self.old index value }
    {
        if index < self.items.len() {
            self.items[index] = value;
        }
    }
}

/// The globals of an instance, in the order of their indices, and its memory if it has one (Core
/// 4.2.5).
#[derive(Drop)]
pub struct Shared {
    pub globals: Globals,
    pub memory: Option<Memory>,
}

/// A memory of its own that is the same, where there is one.
fn memory_of(memory: &Option<Memory>) -> Result<Option<Memory>, NoMemory>
    ensures { IfOk result (λ copy. copy ≡ memory.now) }
{
    match memory {
        Some(memory) => Ok(Some(memory.copy_of()?)),
        None => Ok(None),
    }
}

impl Shared {
    /// Globals and a memory of their own, which are the same.
    pub fn copy_of(&self, alloc: Global) -> Result<Shared, NoMemory>
        ensures { IfOk result (λ copy. copy ≡ self.now) }
    {
        let globals = self.globals.copy_of(alloc)?;
        let memory = memory_of(&self.memory)?;
        Ok(Shared { globals, memory })
    }
}

//! A stack in a vector. Contracts see it as a list with the topmost element first.

ghost use Rattle.std.specs.Prelude.{◌≡◌, ◌+◌, ◌-◌, ◌<◌, ◌≤◌, List, [], ◌∷◌, ◌++◌, length, reverse, drop, take};
ghost use Rattle.std.specs.Prelude.{slice_get, slice_set, OnOk, OnErr, IfOk, MatchOption};

use causes::NoMemory;
use std::alloc::Global;
use std::marker::Model;

/// A stack, which contracts see as the list of its elements, the topmost first. A place is the
/// number of elements below an element, and stays the same while the stack grows above it.
#[derive(Drop)]
pub struct Stack<T> {
    items: Vec<T>,
}

impl<T> Model for Stack<T> {
    ghost use Rattle.std.specs.Prelude.{List, reverse};

    ghost Value = { List T };

    ghost view = { λ s. reverse s.items.items };
}

impl<T: Copy + Drop> Stack<T> {
    /// An empty stack, which takes no memory.
    pub fn new(alloc: Global) -> Self
        ensures { result ≡ [] }
    {
        Stack {
            items: Vec::new(alloc),
        }
    }

    /// A stack of its own with the same elements.
    pub fn copy_of(&self, alloc: Global) -> Result<Self, NoMemory>
        ensures { IfOk result (λ copy. copy ≡ self.now) }
    {
        let items = Vec::from_slice(alloc, self.items.as_slice())?;
        Ok(Stack { items })
    }

    /// The number of elements.
    #[inline(always)]
    pub fn len(&self) -> usize
        ensures { result ≡ length self.now }
    {
        self.items.len()
    }

    /// The elements, the lowest first.
    #[inline(always)]
    pub fn as_slice(&self) -> &[T]
        ensures { result.now ≡ reverse self.now }
    {
        self.items.as_slice()
    }

    /// Puts an element on top.
    #[inline(always)]
    pub fn push(&mut self, x: T) -> Result<(), NoMemory>
        ensures pushed { OnOk result (self.new ≡ x ∷ self.old) }
        ensures same { OnErr result (self.new ≡ self.old) }
    {
        self.items.push(x)?;
        Ok(())
    }

    /// Takes the topmost element away, if there is one.
    #[inline(always)]
    pub fn pop(&mut self) -> Option<T>
        ensures { MatchOption result ((self.old ≡ []) × (self.new ≡ []))
            (λ x. self.old ≡ x ∷ self.new) }
    {
        self.items.pop()
    }

    /// The element under `depth` others, or None where there are not so many.
    #[inline(always)]
    pub fn peek(&self, depth: usize) -> Option<T>
        ensures { result ≡ slice_get self.now depth }
    {
        let count = self.items.len();
        if depth < count {
            Some(self.items[count - 1 - depth])
        } else {
            None
        }
    }

    /// Writes over the topmost element, if there is one.
    #[inline(always)]
    pub fn set_top(&mut self, x: T)
        ensures { self.new ≡ slice_set self.old 0 x }
    {
        let count = self.items.len();
        if count > 0 {
            self.items[count - 1] = x;
        }
    }

    /// Takes the topmost elements away, or all where there are not so many.
    #[inline(always)]
    pub fn discard(&mut self, count: usize)
        ensures { self.new ≡ drop count self.old }
    {
        let kept = self.items.len().saturating_sub(count);
        self.items.truncate(kept);
    }

    /// Keeps the lowest elements, or all where there are not so many.
    #[inline(always)]
    pub fn keep(&mut self, count: usize)
        ensures { self.new ≡ drop (length self.old - count) self.old }
    {
        self.items.truncate(count);
    }

    /// The element at place `base + index`, or None past the top.
    #[inline(always)]
    pub fn at(&self, base: usize, index: usize) -> Option<T>
        ensures { result ≡ slice_get (reverse self.now) (base + index) }
    {
        let count = self.items.len();
        if base <= count && index < count - base {
            Some(self.items[base + index])
        } else {
            None
        }
    }

    /// Writes over the element at place `base + index`, if there is one.
    #[inline(always)]
    pub fn set_at(&mut self, base: usize, index: usize, x: T)
        ensures { self.new ≡ reverse (slice_set (reverse self.old) (base + index) x) }
    {
        let count = self.items.len();
        if base <= count && index < count - base {
            self.items[base + index] = x;
        }
    }
}

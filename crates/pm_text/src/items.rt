//! A list in a vector.

ghost use Rattle.std.specs.Prelude.{◌≡◌, ◌==◌, ◌<◌, ◌-◌, ◌↔◌, ◌++◌, [], ◌∷◌, length, take, slice_get, List, IfOk};
ghost use Rattle.std.specs.Prelude.{IsSome, OnOk, OnErr};
ghost use Rattle.std.specs.Cmp.Lexicographic.{pointwise, lists_per, lists_equiv};
ghost use Rattle.std.specs.Fmt.{debug_list};
ghost use Rattle.std.specs.Option.{option_copied, option_to_list};

use causes::NoMemory;
use std::alloc::Global;
use std::fmt;
use std::marker::Model;

/// A list of values, which contracts see as the list itself.
#[derive(Drop)]
pub struct Items<T> {
    items: Vec<T>,
}

/// A list of bytes.
pub type Bytes = Items<u8>;

/// A list of texts.
pub type Texts = Items<crate::Text>;

impl<T> Model for Items<T> {
    ghost Value = { List T };

    ghost view = { λ s. s.items.items };
}

impl<T> Items<T> {
    /// The empty list, which takes no memory.
    pub fn new(alloc: Global) -> Self
        ensures { result ≡ [] }
    {
        Items {
            items: Vec::new(alloc),
        }
    }

    /// The list in a vector, which is moved and not copied.
    pub fn from_vec(items: Vec<T>) -> Self
        ensures { result ≡ items.items }
    {
        Items { items }
    }

    /// The vector itself.
    pub fn into_vec(self) -> Vec<T>
        ensures { result.items ≡ self }
    {
        self.items
    }

    pub fn as_slice(&self) -> &[T]
        ensures { result.now ≡ self.now }
    {
        self.items.as_slice()
    }

    pub fn len(&self) -> usize
        ensures { result ≡ length self.now }
    {
        self.items.len()
    }

    pub fn is_empty(&self) -> bool
        ensures { result ≡ (length self.now == 0) }
    {
        self.items.is_empty()
    }

    /// The value at an index from 0, or None past the end.
    pub fn get(&self, index: usize) -> Option<&T>
        ensures value { option_copied result ≡ slice_get self.now index }
        ensures variant { IsSome result ↔ (index < length self.now) }
    {
        self.items.as_slice().get(index)
    }

    /// The last value, or None where there is none.
    pub fn last(&self) -> Option<&T>
        ensures value { option_copied result ≡ slice_get self.now (length self.now - 1) }
        ensures variant { IsSome result ↔ (0 < length self.now) }
    {
        self.items.as_slice().last()
    }

    /// Takes the last value away, if there is one.
    pub fn pop(&mut self) -> Option<T>
        ensures value { self.old ≡ self.new ++ option_to_list result }
        ensures variant { IsSome result ↔ (0 < length self.old) }
    {
        self.items.pop()
    }
}

impl<T: Drop> Items<T> {
    /// Adds a value at the end.
    pub fn push(&mut self, value: T) -> Result<(), NoMemory>
        ensures ok { OnOk result (self.new ≡ self.old ++ value ∷ []) }
        ensures err { OnErr result (self.new ≡ self.old) }
    {
        self.items.push(value)?;
        Ok(())
    }

    /// Keeps the first `len` values at most.
    pub fn truncate(&mut self, len: usize)
        ensures { self.new ≡ take len self.old }
    {
        self.items.truncate(len);
    }
}

impl<T: Copy> Items<T> {
    /// A copy of the values.
    pub fn from_slice(alloc: Global, items: &[T]) -> Result<Self, NoMemory>
        ensures { IfOk result (λ v. v ≡ items.now) }
    {
        let items = Vec::from_slice(alloc, items)?;
        Ok(Items { items })
    }

    /// Adds copies of the values at the end.
    pub fn extend_from_slice(&mut self, other: &[T]) -> Result<(), NoMemory>
        ensures ok { OnOk result (self.new ≡ self.old ++ other.now) }
        ensures err { OnErr result (self.new ≡ self.old) }
    {
        self.items.extend_from_slice(other)?;
        Ok(())
    }
}

impl<T: PartialEq> PartialEq for Items<T> {
    ghost eq = { λ x y. pointwise T.eq x y };

    ghost laws = { lists_per T.laws };

    fn eq(&self, other: &Self) -> bool {
        self.as_slice() == other.as_slice()
    }
}

impl<T: Eq> Eq for Items<T> {
    ghost laws = { lists_equiv T.Eq.laws };
}

impl<T: fmt::Debug> fmt::Debug for Items<T> {
    ghost debug_output = { λ x. debug_list T.debug_output x };

    fn fmt<W: fmt::Write>(&self, f: &mut fmt::Formatter<W>) -> fmt::Result {
        fmt::Debug::fmt(&self.as_slice(), f)
    }
}

//! Parts that may stand once.

ghost use Rattle.std.specs.Prelude.{◌≡◌};
ghost use Rattle.dump_format.specs.inner.Gathering.{added, found_or, is_found, is_found_again};

/// A part of a dump, as far as its sections are read.
#[derive(Drop)]
pub enum Found<T> {
    Absent,
    Once(T),
    /// It stood more than once, and is not kept.
    Repeated,
}

impl<T: Drop> Found<T> {
    /// Takes one more value.
    pub fn add(&mut self, value: T)
        ensures { self.new ≡ added self.old value }
    {
        *self = match self {
            Found::Absent => Found::Once(value),
            Found::Once(_) | Found::Repeated => Found::Repeated,
        };
    }

    /// The value, where there is exactly one.
    pub fn or(self, other: T) -> T
        ensures { result ≡ found_or other self }
    {
        match self {
            Found::Once(value) => value,
            Found::Absent | Found::Repeated => other,
        }
    }
}

impl<T> Found<T> {
    pub fn is_found(&self) -> bool
        ensures { result ≡ is_found self.now }
    {
        !matches!(self, Found::Absent)
    }

    pub fn is_repeated(&self) -> bool
        ensures { result ≡ is_found_again self.now }
    {
        matches!(self, Found::Repeated)
    }
}

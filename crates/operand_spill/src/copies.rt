//! What operands are: numbers, and values of locals.

ghost use Rattle.std.specs.Prelude.{◌≡◌, Some, option_map};
ghost use Rattle.rewrite_bodies.specs.calls.Facts.{copy_of, number_of, no_copies, under_one};
ghost use Rattle.rewrite_bodies.specs.calls.Facts.{without_top, unless_on, other_copies, is_on};
ghost use Rattle.rewrite_bodies.specs.calls.Facts.{copies_behind, is_local};
ghost use Rattle.operand_spill.specs.inner.Exposing.{base_of, copy, copies};

use wasm_syntax::{Basic, Value};

/// An operand that is this number, or the value of a local.
#[derive(Clone, Copy)]
pub struct KnownCopy {
    pub local: Option<u32>,
    pub plus: u32,
}

/// What the three topmost operands are, where it is known.
#[derive(Clone, Copy)]
pub struct KnownCopies {
    pub first: Option<KnownCopy>,
    pub second: Option<KnownCopy>,
    pub third: Option<KnownCopy>,
}

fn copy_of(local: u32) -> KnownCopy
    ensures { copy result ≡ copy_of local }
{
    KnownCopy {
        local: Some(local),
        plus: 0,
    }
}

fn number_of(value: Value) -> Option<KnownCopy>
    ensures { option_map copy result ≡ number_of value }
{
    match value {
        Value::I32(number) => Some(KnownCopy {
            local: None,
            plus: number,
        }),
        Value::I64(_) => None,
    }
}

/// Whether a base is this local.
pub fn is_written(base: Option<u32>, local: u32) -> bool
    ensures { result ≡ is_on (is_local (Some local)) (base_of base) }
{
    match base {
        Some(found) => local == found,
        None => false,
    }
}

/// Where this local is written, no copy of it.
fn unless_on(known: Option<KnownCopy>, local: u32) -> Option<KnownCopy>
    ensures { option_map copy result ≡ unless_on (is_local (Some local)) (option_map copy known) }
{
    match known {
        Some(found) => {
            if is_written(found.local, local) {
                None
            } else {
                Some(found)
            }
        }
        None => None,
    }
}

impl KnownCopies {
    /// Nothing is known.
    pub fn none() -> Self
        ensures { copies result ≡ no_copies }
    {
        KnownCopies {
            first: None,
            second: None,
            third: None,
        }
    }

    // Under one more operand.
    fn under_one(self, top: Option<KnownCopy>) -> Self
        ensures { copies result ≡ under_one (option_map copy top) (copies self) }
    {
        KnownCopies {
            first: top,
            second: self.first,
            third: self.second,
        }
    }

    // Without the topmost operand.
    fn without_top(self) -> Self
        ensures { copies result ≡ without_top (copies self) }
    {
        KnownCopies {
            first: self.second,
            second: self.third,
            third: None,
        }
    }

    // Where this local is written.
    fn others(self, local: u32) -> Self
        ensures { copies result ≡ other_copies (is_local (Some local)) (copies self) }
    {
        KnownCopies {
            first: unless_on(self.first, local),
            second: unless_on(self.second, local),
            third: unless_on(self.third, local),
        }
    }

    /// Behind an instruction.
    pub fn behind(self, instruction: Basic) -> Self
        ensures { copies result ≡ copies_behind instruction (copies self) }
    {
        match instruction {
            Basic::LocalGet(local) => self.under_one(Some(copy_of(local))),
            Basic::LocalTee(local) => self
                .without_top()
                .others(local)
                .under_one(Some(copy_of(local))),
            Basic::Const(value) => self.under_one(number_of(value)),
            Basic::Load(_, _, _)
            | Basic::Eqz(_)
            | Basic::Unary(_, _)
            | Basic::Convert(_)
            | Basic::Extend32(_)
            | Basic::Extend64(_) => self.without_top().under_one(None),
            Basic::Compare(_, _) | Basic::Binary(_, _) => {
                self.without_top().without_top().under_one(None)
            }
            _ => KnownCopies::none(),
        }
    }
}

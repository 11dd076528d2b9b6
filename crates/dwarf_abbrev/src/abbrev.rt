//! Abbreviations.

ghost use Rattle.std.specs.Prelude.{◌≡◌};

use crate::table::{Coded, Table};
use pm_text::Items;

pub type Pairs = Items<Pair>;

/// The abbreviations of a table, in order.
pub type Abbrevs = Table<Abbrev>;

/// An attribute, and the form in which entries hold its value, by their codes.
#[derive(Clone, Copy)]
pub struct Pair {
    pub attribute: u64,
    pub form: u64,
}

/// What the entries of one code have in common.
#[derive(Drop)]
pub struct Abbrev {
    pub code: u64,
    pub tag: u64,
    /// Whether a list of children stands behind the attributes.
    pub children: bool,
    pub pairs: Pairs,
}

impl Coded for Abbrev {
    ghost code = { λ a. a.code };

    fn code(&self) -> u64 {
        self.code
    }
}

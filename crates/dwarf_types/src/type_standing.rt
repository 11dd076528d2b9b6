//! Entries of types where they stand.

ghost use Rattle.std.specs.Prelude.{◌≡◌, ◌≤◌, find, IfSome, option_copied, Some};
ghost use Rattle.dwarf_entries.specs.Tags.{tag_enumerator};
ghost use Rattle.dwarf_entries.specs.Standing.{entries_inside, inside, children_tagged};
ghost use Rattle.dwarf_types.specs.Counts.{counts};
ghost use Rattle.dwarf_types.specs.calls.Subranges.{AreOf};
ghost use Rattle.dwarf_types.specs.calls.Inside.{AreInside, picked};
ghost use Rattle.dwarf_types.specs.calls.Contents.{AreContentsOf, contents};
ghost use Rattle.dwarf_types.specs.calls.Numbers.{AreFirst, AreFirstOf, has_key, number_key};

use crate::array_rows::ArrayRows;
use crate::entry_range::{EntryRange, entry_at, in_range};
use crate::enumerators::Enumerators;
use crate::structures::MemberPositions;
use dwarf_entries::Standing;
use dwarf_info::Entry;
use std::marker::Model;

/// The entry of a type where it stands, with what is known of its subranges, if it is that of an
/// array, and of what stands in it, if it is that of a structure or of an enumeration. Contracts see
/// it as the entry where it stands.
#[derive(Drop)]
pub struct TypeStanding<'r, 'k, 'a> {
    standing: Standing<'r, 'a>,
    rows: Option<&'k ArrayRows>,
    contents: Option<&'k MemberPositions>,
    enumerators: Option<&'k Enumerators>,
}

impl<'r, 'k, 'a> Model for TypeStanding<'r, 'k, 'a> {
    ghost use Rattle.std.specs.Prelude.{Some, option_copied, IfSome};
    ghost use Rattle.dwarf_entries.specs.Standing.{Standing};
    ghost use Rattle.dwarf_types.specs.calls.Subranges.{AreOf};
    ghost use Rattle.dwarf_types.specs.calls.Contents.{AreContentsOf};
    ghost use Rattle.dwarf_types.specs.calls.Numbers.{AreFirstOf};

    ghost Value = { Standing };

    ghost view = { λ x. x.standing };

    ghost invariant = { λ x. IfSome (option_copied x.rows) (AreOf (Some x.standing))
        × IfSome (option_copied x.contents) (AreContentsOf (Some x.standing))
        × IfSome (option_copied x.enumerators) (AreFirstOf (Some x.standing)) };
}

impl<'r, 'k, 'a> TypeStanding<'r, 'k, 'a> {
    pub(crate) fn new(
        standing: Standing<'r, 'a>,
        rows: Option<&'k ArrayRows>,
        contents: Option<&'k MemberPositions>,
        enumerators: Option<&'k Enumerators>,
    ) -> Self
        requires rows { IfSome (option_copied rows) (AreOf (Some standing)) }
        requires contents { IfSome (option_copied contents) (AreContentsOf (Some standing)) }
        requires enumerators { IfSome (option_copied enumerators) (AreFirstOf (Some standing)) }
        ensures { result ≡ standing.entry }
    {
        TypeStanding {
            standing,
            rows,
            contents,
            enumerators,
        }
    }

    /// The entry where it stands.
    pub fn standing(&self) -> &Standing<'r, 'a>
        ensures { result.now ≡ self.now }
    {
        &self.standing
    }

    pub fn entry(&self) -> &'r Entry<'a>
        ensures { result.now ≡ self.now.entry }
    {
        self.standing.entry()
    }

    /// Whether its subranges are known.
    pub(crate) fn is_known(&self) -> bool {
        self.rows.is_some()
    }

    /// What is known of its subranges.
    pub fn rows(&self) -> Option<&'k ArrayRows>
        ensures { IfSome (option_copied result) (λ rows. rows.counts ≡ counts self.now) }
    {
        self.rows
    }

    /// What is known of its subranges, where the innermost elements have this size.
    #[tactic(auto, using(crate::proofs::KeptLaws::rows_here))]
    pub fn rows_of(&self, element: u64) -> Option<&'k ArrayRows>
        ensures counts { IfSome (option_copied result) (λ rows. rows.counts ≡ counts self.now) }
        ensures element { IfSome (option_copied result) (λ rows. rows.element ≡ element) }
    {
        let rows = self.rows?;
        if rows.element() == element {
            Some(rows)
        } else {
            None
        }
    }

    /// The entries in it, where it is known which of its unit's these are. It takes no time by them.
    pub fn inside_at(&self, range: EntryRange) -> &'r [Entry<'a>]
        requires { AreInside self.now range }
        ensures { result.now ≡ entries_inside self.now }
    {
        in_range(self.standing.unit().entries.as_slice(), range)
    }

    /// The members and variant parts among its children, where they are known: their positions among
    /// the entries in it.
    pub fn contents(&self) -> Option<&'k MemberPositions>
        ensures range { IfSome (option_copied result) (λ m. AreInside self.now m.range) }
        ensures told { IfSome (option_copied result)
            (λ m. picked m.positions (inside self.now) ≡ contents self.now) }
    {
        self.contents
    }

    /// The first of its enumerators of each number, where they are known of this size.
    #[tactic(auto, using(crate::proofs::KeptLaws::first_range, crate::proofs::KeptLaws::first_here))]
    pub fn enumerators_of(&self, size: u64) -> Option<&'k Enumerators>
        ensures size { IfSome (option_copied result) (λ e. e.size ≡ size) }
        ensures range { IfSome (option_copied result) (λ e. AreInside self.now e.range) }
        ensures first { IfSome (option_copied result) (AreFirst self.now) }
    {
        let enumerators = self.enumerators?;
        if enumerators.size() == size {
            Some(enumerators)
        } else {
            None
        }
    }

    /// The first of its enumerators of a number, by what is known of them.
    pub fn enumerator_by(&self, known: &Enumerators, number: i128) -> Option<&'r Entry<'a>>
        requires size { known.now.size ≤ 8 }
        requires range { AreInside self.now known.now.range }
        requires first { AreFirst self.now known.now }
        ensures { option_copied result
            ≡ find (has_key known.now.size (number_key known.now.size number))
            (children_tagged tag_enumerator self.now) }
    {
        match known.first(number) {
            Some(position) => entry_at(self.inside_at(known.range()), position),
            None => None,
        }
    }
}

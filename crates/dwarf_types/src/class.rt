//! Classes of type entries by their tags.

ghost use Rattle.std.specs.Prelude.{◌≡◌};
ghost use Rattle.dwarf_types.specs.Classes.{class_of};

use dwarf_entries::tags::{
    ARRAY, BASE, CLASS, CONST, ENUMERATION, POINTER, REFERENCE, RESTRICT, RVALUE_REFERENCE,
    STRUCTURE, TYPEDEF, UNION, VOLATILE,
};

/// What a type entry is.
#[derive(Clone, Copy, PartialEq, Eq)]
pub enum Class {
    /// Another name of a type, or a type with a qualifier (DWARF 4 sections 5.2 and 5.3).
    Passed,
    /// A pointer or a reference (5.2).
    Pointing,
    /// A structure, a class or a union (5.5).
    Members,
    /// An array (5.4).
    Array,
    /// An enumeration (5.7).
    Enumeration,
    /// A base type (5.1).
    Base,
    Another,
}

/// The class of the entries of a tag.
#[tactic(auto, unfolding(crate::specs::Classes::class_of))]
pub fn class_of(tag: u64) -> Class
    ensures { result ≡ class_of tag }
{
    match tag {
        TYPEDEF | CONST | VOLATILE | RESTRICT => Class::Passed,
        POINTER | REFERENCE | RVALUE_REFERENCE => Class::Pointing,
        STRUCTURE | CLASS | UNION => Class::Members,
        ARRAY => Class::Array,
        ENUMERATION => Class::Enumeration,
        BASE => Class::Base,
        _ => Class::Another,
    }
}

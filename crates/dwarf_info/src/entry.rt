//! Units, entries and attributes.

use crate::attributes::Attributes;
use pm_text::{Items, Text};
use wasm_bytes::Run;

pub type Entries<'a> = Items<Entry<'a>>;

/// A unit, or what stands in its place.
#[derive(Drop)]
pub enum UnitAnswer<'a> {
    Tree(Unit<'a>),
    /// Nothing that has a reading stands at this offset of the section.
    Unreadable { section: Text, at: usize },
}

/// A unit of `.debug_info` (DWARF 4 section 7.5.1).
#[derive(Drop)]
pub struct Unit<'a> {
    /// The offset of its length.
    pub at: u32,
    pub version: u32,
    /// The tree written out in the order of the section: the root first, an entry before its
    /// children.
    pub entries: Entries<'a>,
}

/// An entry of the tree of a unit (DWARF 4 section 2.1).
#[derive(Drop)]
pub struct Entry<'a> {
    /// Its offset in the section.
    pub at: u32,
    /// 0 for the root; a child is one deeper than its parent.
    pub depth: u32,
    pub tag: u64,
    pub attributes: Attributes<'a>,
}

#[derive(Drop)]
pub struct Attribute<'a> {
    pub name: u64,
    pub value: AttrValue<'a>,
}

/// The value of an attribute, by the class of its form (DWARF 4 section 7.5.4). Blocks and texts
/// are borrowed from the sections.
#[derive(Drop)]
pub enum AttrValue<'a> {
    Address(u32),
    Constant(u64),
    Signed(i64),
    Block(Run<'a>),
    Text(Run<'a>),
    Flag(bool),
    /// The offset in the section of the entry that is meant.
    Reference(u32),
    /// An offset in another section.
    Offset(u32),
    /// A value that is not used, or a reference to nothing.
    Other,
}

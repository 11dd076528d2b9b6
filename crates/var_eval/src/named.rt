//! Members of structures by their names (DWARF 4 section 5.5.6).

ghost use Rattle.std.specs.Prelude.{◌≡◌, ◌≤◌, ℕ, List, length, filter, find, true, false, None, IfOk, OnOk};
ghost use Rattle.std.specs.Prelude.{IfSome, option_copied};
ghost use Rattle.std.specs.Option.{option_or};
ghost use Rattle.dwarf_info.specs.declared.entry.UnitAnswer.{UnitAnswer};
ghost use Rattle.dwarf_entries.specs.Standing.{entries_inside, is_child, standing_at};
ghost use Rattle.dwarf_entries.specs.Tags.{tag_member};
ghost use Rattle.dwarf_types.specs.Structures.{tag_variant_part};
ghost use Rattle.var_eval.specs.inner.Named as named;

use crate::elements::first_child;
use causes::NoMemory;
use dwarf_entries::tags::MEMBER;
use dwarf_entries::{Standing, is_child, name_or_empty};
use dwarf_info::{Entry, Units};
use dwarf_types::VARIANT_PART;
use std::alloc::Global;
use std::collections::BTreeMap;
use std::marker::Model;

/// Longer names are not kept: many of them may share their bytes, and comparing takes their length.
pub const LONGEST_NAME: usize = 128;

/// So many steps of a path look through all members, which takes less time than ordering them.
const FEW_STEPS: u32 = 8;

/// A member. Contracts see it as its entry.
#[derive(Drop)]
pub struct NamedMember<'r, 'a> {
    entry: &'r Entry<'a>,
}

impl<'r, 'a> Model for NamedMember<'r, 'a> {
    ghost use Rattle.dwarf_info.specs.declared.entry.Entry.{Entry};

    ghost Value = { Entry };

    ghost view = { λ x. x.entry.now };
}

impl<'r, 'a> NamedMember<'r, 'a> {
    pub fn entry(&self) -> &'r Entry<'a>
        ensures { result.now ≡ self.now }
    {
        self.entry
    }
}

/// The first member of each name that is not too long, of a structure without variant parts.
#[derive(Drop)]
pub struct MemberNames<'r, 'a> {
    pub first: BTreeMap<&'a [u8], NamedMember<'r, 'a>>,
}

/// What is known of the members of structures, by the offsets of their entries. One that is left out
/// is no mistake: its members are looked through.
#[derive(Drop)]
pub struct KnownMembers<'r, 'a> {
    steps: u32,
    pub structures: BTreeMap<u32, MemberNames<'r, 'a>>,
}

/// No step was made yet.
#[tactic(auto, using(crate::proofs::NamedLaws::none_known))]
pub fn no_members<'r, 'a>(alloc: Global) -> KnownMembers<'r, 'a>
    ensures { (units : List UnitAnswer) → named.AreKnown units result }
{
    KnownMembers {
        steps: 0,
        structures: BTreeMap::new(alloc),
    }
}

// ---- the members of one structure

/// Adds a member of a name behind all others.
#[tactic(auto, using(crate::proofs::NamedLaws::kept_before, crate::proofs::NamedLaws::one_added))]
fn add_first<'r, 'a>(
    names: &mut MemberNames<'r, 'a>,
    name: &'a [u8],
    entry: &'r Entry<'a>,
) -> Result<(), NoMemory>
    ensures { OnOk result ((q : List ℕ) → named.first_by names.new q
        ≡ option_or (named.first_by names.old q) (named.own_at entry.now name.now q)) }
{
    if names.first.contains_key(name) {
        return Ok(());
    }
    match names.first.insert(name, NamedMember { entry }) {
        Ok(_) => Ok(()),
        Err(_) => Err(NoMemory),
    }
}

/// Adds an entry behind all others, if it is a member whose name is kept.
#[tactic(auto, using(crate::proofs::NamedLaws::other_left_out, crate::proofs::NamedLaws::long_left_out, crate::proofs::NamedLaws::short_added))]
fn add_entry<'r, 'a>(
    names: &mut MemberNames<'r, 'a>,
    units: &'r Units<'a>,
    depth: u32,
    entry: &'r Entry<'a>,
) -> Result<(), NoMemory>
    ensures { OnOk result ((q : List ℕ) → length q ≤ named.longest_name
        → named.first_by names.new q
        ≡ option_or (named.first_by names.old q) (named.member_at units.now depth entry.now q)) }
{
    if !is_child(entry, depth, MEMBER) {
        return Ok(());
    }
    let name = name_or_empty(units, &entry.attributes);
    if name.len() > LONGEST_NAME {
        return Ok(());
    }
    add_first(names, name, entry)
}

/// Adds the members among entries that are children of one of this depth.
#[tactic(auto, using(crate::proofs::NamedLaws::turn_named, crate::proofs::NamedLaws::all_named))]
fn add_entries<'r, 'a>(
    names: &mut MemberNames<'r, 'a>,
    units: &'r Units<'a>,
    depth: u32,
    entries: &'r [Entry<'a>],
) -> Result<(), NoMemory>
    ensures { OnOk result ((q : List ℕ) → length q ≤ named.longest_name
        → named.first_by names.new q ≡ option_or (named.first_by names.old q)
        (find (named.is_called units.now q) (filter (is_child depth tag_member) entries.now))) }
{
    let mut left = entries;
    'entries: while let [entry, behind @ ..] = left {
        add_entry(names, units, depth, entry)?;
        left = behind;
    }
    Ok(())
}

/// Whether a variant part is among the children of an entry.
#[tactic(auto, using(crate::proofs::NamedLaws::none_inside))]
fn has_variant_part(standing: &Standing<'_, '_>) -> bool
    ensures { result ≡ false → find (is_child standing.now.entry.depth tag_variant_part)
        (entries_inside standing.now) ≡ None }
{
    match first_child(standing.inside(), standing.entry().depth, VARIANT_PART) {
        Some(_) => true,
        None => false,
    }
}

/// The members of a structure without variant parts.
fn names_of<'r, 'a>(
    alloc: Global,
    units: &'r Units<'a>,
    standing: &Standing<'r, 'a>,
) -> Result<MemberNames<'r, 'a>, NoMemory>
    requires { find (is_child standing.now.entry.depth tag_variant_part)
        (entries_inside standing.now) ≡ None }
    ensures { IfOk result (named.AreNamed units.now standing.now) }
{
    let mut names = MemberNames {
        first: BTreeMap::new(alloc),
    };
    match add_entries(&mut names, units, standing.entry().depth, standing.inside()) {
        Ok(()) => Ok(names),
        Err(NoMemory) => Err(NoMemory),
    }
}

impl<'r, 'a> MemberNames<'r, 'a> {
    /// The first one of a name.
    fn first(&self, name: &[u8]) -> Option<NamedMember<'r, 'a>>
        ensures { result ≡ named.first_by self.now name.now }
    {
        match self.first.get(name) {
            Some(found) => Some(NamedMember { entry: found.entry }),
            None => None,
        }
    }
}

// ---- those of the structures on a path

/// Keeps the members of a structure.
#[tactic(auto, using(crate::proofs::NamedLaws::one_known))]
fn keep<'r, 'a>(
    known: &mut KnownMembers<'r, 'a>,
    at: u32,
    names: MemberNames<'r, 'a>,
) -> Result<(), NoMemory>
    ensures { OnOk result ((units : List UnitAnswer) → named.AreKnown units known.old
        → named.AreNamedOf units (standing_at units at) names.entry
        → named.AreKnown units known.new) }
{
    match known.structures.insert(at, names) {
        Ok(before) => {
            drop(before);
            Ok(())
        }
        Err(failed) => {
            drop(failed);
            Err(NoMemory)
        }
    }
}

/// Keeps the members of a structure that was met at a step behind the first few, where it has no
/// variant parts.
#[tactic(auto, using(crate::proofs::NamedLaws::names_kept))]
fn keep_members<'r, 'a>(
    alloc: Global,
    units: &'r Units<'a>,
    known: &mut KnownMembers<'r, 'a>,
    standing: &Standing<'r, 'a>,
) -> Result<(), NoMemory>
    requires own { named.IsFound units.now standing.now }
    requires known { named.AreKnown units.now known.old }
    ensures { OnOk result (named.AreKnown units.now known.new) }
{
    if known.steps < FEW_STEPS {
        known.steps += 1;
        return Ok(());
    }
    let at = standing.entry().at;
    if known.structures.contains_key(&at) {
        return Ok(());
    }
    if has_variant_part(standing) {
        return Ok(());
    }
    let Ok(names) = names_of(alloc, units, standing) else {
        return Err(NoMemory);
    };
    keep(known, at, names)?;
    Ok(())
}

/// What is known of the members of the structure at an offset.
#[tactic(auto, using(crate::proofs::NamedLaws::names_got))]
fn names_at<'s, 'r, 'a>(known: &'s KnownMembers<'r, 'a>, at: u32) -> Option<&'s MemberNames<'r, 'a>>
    ensures { (units : List UnitAnswer) → named.AreKnown units known.now
        → IfSome (option_copied result) (named.AreNamedOf units (standing_at units at)) }
{
    known.structures.get(&at)
}

/// The member of a name that a structure has, or that it has none, where that is known. Only of one
/// whose entry is known to be that at its offset it can be.
#[tactic(auto, using(crate::proofs::NamedLaws::member_here))]
pub fn known_member<'r, 'a>(
    alloc: Global,
    units: &'r Units<'a>,
    known: &mut KnownMembers<'r, 'a>,
    own: bool,
    standing: &Standing<'r, 'a>,
    name: &[u8],
) -> Result<Option<Option<NamedMember<'r, 'a>>>, NoMemory>
    requires own { own ≡ true → named.IsFound units.now standing.now }
    requires known { named.AreKnown units.now known.old }
    ensures is { IfOk result (λ found.
        IfSome found (named.IsMember units.now standing.now name.now)) }
    ensures known { OnOk result (named.AreKnown units.now known.new) }
{
    if !own {
        return Ok(None);
    }
    if name.len() > LONGEST_NAME {
        return Ok(None);
    }
    let Ok(()) = keep_members(alloc, units, known, standing) else {
        return Err(NoMemory);
    };
    match names_at(known, standing.entry().at) {
        Some(names) => Ok(Some(names.first(name))),
        None => Ok(None),
    }
}

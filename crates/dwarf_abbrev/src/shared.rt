//! Lists of values with codes, of which each is another one with a value in front.

ghost use Rattle.std.specs.Prelude.{◌≡◌, ◌≤◌, ◌==◌, ◌++◌, ◌+◌, [], ◌∷◌, ℕ, find, length, slice_get, IfOk, OnOk, OnErr};
ghost use Rattle.std.specs.Prelude.{◌||◌, drop, take, if◌then◌else◌};
ghost use Rattle.std.specs.Option.{is_some, option_copied};
ghost use Rattle.dwarf_abbrev.specs.calls.Shared.{list_of};
ghost use Rattle.dwarf_abbrev.specs.inner.Forks.{found, IsClosed};
ghost use Rattle.dwarf_abbrev.specs.inner.Linked.{lists, first_of, map_of, rest_of, Follows, FindsBehind, Finds};

use crate::forks::{Fork, found, with};
use crate::table::Coded;
use causes::NoMemory;
use pm_text::Items;
use std::alloc::Global;
use std::marker::Model;

/// A value in front of a list. Lists are numbered: 0 is the empty one, and n + 1 begins with the
/// value of index n.
#[derive(Drop)]
pub struct Link<T: Drop> {
    pub value: T,
    /// The list behind the value.
    pub rest: u32,
    /// The map from codes to the numbers of the lists that begin with their first values, as it is
    /// for all codes but those of the first eight values, which are looked at one by one. So values
    /// of a few codes in turn take no nodes.
    pub map: u32,
}

/// Lists of values, of which each but the empty one is another one with a value in front; the first
/// value of a code is found in logarithmic time in each of them. Contracts see the lists but the
/// empty one, which has the number 0.
#[derive(Drop)]
pub struct SharedLists<T: Coded> {
    links: Items<Link<T>>,
    forks: Items<Fork>,
}

impl<T: Coded> Model for SharedLists<T> {
    ghost use Rattle.std.specs.Prelude.{List};
    ghost use Rattle.dwarf_abbrev.specs.inner.Linked.{lists, Finds};

    ghost Value = { List (List T) };

    ghost view = { λ s. lists s.links };

    ghost invariant = { λ s. Finds T.code s.links s.forks };
}

/// The value that the list of a number begins with.
#[tactic(auto, using(crate::proofs::LinkLaws::first_at))]
fn first_of<T: Coded>(links: &[Link<T>], number: u32) -> Option<&T>
    ensures { option_copied result ≡ first_of links.now number }
{
    if number == 0 {
        return None;
    }
    match links.get(number as usize - 1) {
        Some(link) => Some(&link.value),
        None => None,
    }
}

/// The map of the list of a number.
#[tactic(auto, using(crate::proofs::LinkLaws::map_at))]
fn map_of<T: Coded>(links: &[Link<T>], number: u32) -> u32
    ensures { result ≡ map_of links.now number }
{
    if number == 0 {
        return 0;
    }
    match links.get(number as usize - 1) {
        Some(link) => link.map,
        None => 0,
    }
}

/// The number of the list that the one of a number names behind its first value.
#[tactic(auto, using(crate::proofs::LinkLaws::rest_at))]
fn rest_of<T: Coded>(links: &[Link<T>], number: u32) -> u32
    ensures { result ≡ rest_of links.now number }
{
    if number == 0 {
        return 0;
    }
    match links.get(number as usize - 1) {
        Some(link) => link.rest,
        None => 0,
    }
}

/// The list behind the first value of that of a number.
fn behind_first<T: Coded>(links: &[Link<T>], list: u32) -> u32
    requires follows { Follows links.now }
    ensures list { list_of (lists links.now) result ≡ drop 1 (list_of (lists links.now) list) }
    ensures there { result ≤ length links.now }
{
    rest_of(links, list)
}

/// The list behind so many values of that of a number.
fn passed<T: Coded>(links: &[Link<T>], count: u32, list: u32) -> u32
    requires follows { Follows links.now }
    requires there { list ≤ length links.now }
    ensures list { list_of (lists links.now) result
        ≡ drop count (list_of (lists links.now) list) }
    ensures there { result ≤ length links.now }
{
    if count == 0 {
        return list;
    }
    passed(links, count - 1, behind_first(links, list))
}

/// The first value of a code among so many of the list of a number.
fn find_near<'s, T: Coded>(links: &'s [Link<T>], count: u32, list: u32, code: u64) -> Option<&'s T>
    requires follows { Follows links.now }
    ensures { option_copied result
        ≡ find (λ item. T.code item == code) (take count (list_of (lists links.now) list)) }
{
    if count == 0 {
        return None;
    }
    let front = first_of(links, list)?;
    if front.code() == code {
        return Some(front);
    }
    find_near(links, count - 1, behind_first(links, list), code)
}

/// Whether a code is one in front of a list, or that of one of its first seven values.
fn is_near<T: Coded>(links: &[Link<T>], front: u64, list: u32, code: u64) -> bool
    requires follows { Follows links.now }
    ensures { result ≡ (code == front
        || is_some (find (λ item. T.code item == code) (take 7 (list_of (lists links.now) list)))) }
{
    code == front || find_near(links, 7, list, code).is_some()
}

/// A map, in which the value of a code is that of the list of a number, if the code is not near.
fn with_other(
    forks: &mut Items<Fork>,
    before: u32,
    is_near: bool,
    other: u64,
    rest: u32,
) -> Result<u32, NoMemory>
    requires closed { IsClosed forks.old }
    requires there { before ≤ length forks.old }
    ensures closed { IsClosed forks.new }
    ensures grows { length forks.old ≤ length forks.new }
    ensures same { (fuel n k : ℕ) → n ≤ length forks.old
        → found forks.new fuel n k ≡ found forks.old fuel n k }
    ensures number { IfOk result (λ made. made ≤ length forks.new) }
    ensures value { IfOk result (λ made. (fuel k : ℕ) → k ≤ fuel
        → found forks.new fuel made k ≡ (if is_near then found forks.old fuel before k
        else (if other == k then rest else found forks.old fuel before k))) }
{
    if is_near {
        return Ok(before);
    }
    with(forks, before, other, rest)
}

/// Adds the map of a list that has a value of a code in front of that of a number.
fn map_behind<T: Coded>(
    links: &[Link<T>],
    forks: &mut Items<Fork>,
    code: u64,
    rest: u32,
) -> Result<u32, NoMemory>
    requires finds { Finds T.code links.now forks.old }
    requires rest { rest ≤ length links.now }
    ensures closed { IsClosed forks.new }
    ensures grows { length forks.old ≤ length forks.new }
    ensures same { (fuel n k : ℕ) → n ≤ length forks.old
        → found forks.new fuel n k ≡ found forks.old fuel n k }
    ensures number { IfOk result (λ made. made ≤ length forks.new) }
    ensures value { IfOk result (λ made. FindsBehind T.code links.now forks.new made rest code) }
{
    let before = map_of(links, rest);
    let last = passed(links, 7, rest);
    match first_of(links, last) {
        Some(value) => {
            let other = value.code();
            let near = is_near(links, code, rest, other);
            with_other(forks, before, near, other, last)
        }
        None => Ok(before),
    }
}

/// Adds the list that has a value in front of that of a number, and hands out its own number.
fn add_link<T: Coded>(
    links: &mut Items<Link<T>>,
    forks: &mut Items<Fork>,
    value: T,
    rest: u32,
) -> Result<u32, NoMemory>
    requires finds { Finds T.code links.old forks.old }
    requires rest { rest ≤ length (lists links.old) }
    ensures finds { Finds T.code links.new forks.new }
    ensures made { OnOk result (lists links.new
        ≡ lists links.old ++ (value ∷ list_of (lists links.old) rest) ∷ []) }
    ensures number { IfOk result (λ number. number ≡ length (lists links.old) + 1) }
    ensures err { OnErr result (links.new ≡ links.old) }
{
    let len = links.len();
    if len >= 0xFFFF_FFFF {
        return Err(NoMemory);
    }
    let number = len as u32 + 1;
    let map = map_behind(links.as_slice(), forks, value.code(), rest)?;
    links.push(Link { value, rest, map })?;
    Ok(number)
}

/// What the map of the list of a number has for a code.
fn mapped<'s, T: Coded>(links: &'s [Link<T>], forks: &[Fork], list: u32, code: u64) -> Option<&'s T>
    ensures { (fuel : ℕ) → code ≤ fuel → option_copied result
        ≡ first_of links.now (found forks.now fuel (map_of links.now list) code) }
{
    first_of(links, found(forks, map_of(links, list), code))
}

/// The first value of a code in the list of a number.
fn find_in<'s, T: Coded>(
    links: &'s [Link<T>],
    forks: &[Fork],
    list: u32,
    code: u64,
) -> Option<&'s T>
    requires { Finds T.code links.now forks.now }
    ensures { option_copied result ≡ find (λ item. T.code item == code) (list_of (lists links.now) list) }
{
    match find_near(links, 8, list, code) {
        Some(near) => Some(near),
        None => mapped(links, forks, list, code),
    }
}

impl<T: Coded> SharedLists<T> {
    /// No list but the empty one.
    pub fn new(alloc: Global) -> Self
        ensures { result ≡ [] }
    {
        SharedLists {
            links: Items::new(alloc),
            forks: Items::new(alloc),
        }
    }

    /// Adds the list that has a value in front of that of a number, and hands out its own number.
    pub fn push(&mut self, value: T, rest: u32) -> Result<u32, NoMemory>
        requires { rest ≤ length self.old }
        ensures made { OnOk result (self.new
            ≡ self.old ++ (value ∷ list_of self.old rest) ∷ []) }
        ensures number { IfOk result (λ number. number ≡ length self.old + 1) }
        ensures err { OnErr result (self.new ≡ self.old) }
    {
        add_link(&mut self.links, &mut self.forks, value, rest)
    }

    /// The value that the list of a number begins with.
    #[tactic(auto, using(crate::proofs::LinkLaws::first_is))]
    pub fn first(&self, list: u32) -> Option<&T>
        ensures { option_copied result ≡ slice_get (list_of self.now list) 0 }
    {
        first_of(self.links.as_slice(), list)
    }

    /// The first value of a code in the list of a number.
    pub fn find(&self, list: u32, code: u64) -> Option<&T>
        ensures { option_copied result
            ≡ find (λ item. T.code item == code) (list_of self.now list) }
    {
        find_in(self.links.as_slice(), self.forks.as_slice(), list, code)
    }
}

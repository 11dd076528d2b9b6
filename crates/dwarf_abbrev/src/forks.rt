//! Maps from numbers to numbers, of which each is another one with a pair more: binary tries over
//! the bits of keys, the lowest bit first, that share what they have in common.

ghost use Rattle.std.specs.Prelude.{◌≡◌, ◌≤◌, ◌==◌, ◌++◌, ◌+◌, [], ◌∷◌, ℕ, Bool, length, IfOk, OnOk, OnErr};
ghost use Rattle.std.specs.Prelude.{if◌then◌else◌};
ghost use Rattle.dwarf_abbrev.specs.inner.Forks.{node, here_of, behind, found, IsClosed, Side};

use causes::NoMemory;
use pm_text::Items;

/// A node of a trie. Nodes stand in a list; 0 is none, and n + 1 that of index n.
#[derive(Clone, Copy)]
pub struct Fork {
    /// What the key has whose bits end here; 0 is nothing.
    pub here: u32,
    /// The node of the keys that go on with a bit 0.
    pub even: u32,
    /// The node of the keys that go on with a bit 1.
    pub odd: u32,
}

/// The node of a number.
#[tactic(auto, using(crate::proofs::TrieLaws::node_at))]
fn node(forks: &[Fork], number: u32) -> Option<Fork>
    ensures { result ≡ node forks.now number }
{
    if number == 0 {
        return None;
    }
    match forks.get(number as usize - 1) {
        Some(fork) => Some(*fork),
        None => None,
    }
}

fn here_of(node: Option<Fork>) -> u32
    ensures { result ≡ here_of node }
{
    match node {
        Some(fork) => fork.here,
        None => 0,
    }
}

/// The number of the node behind a bit.
fn behind(is_set: bool, node: Option<Fork>) -> u32
    ensures { result ≡ behind is_set node }
{
    match node {
        Some(fork) => { if is_set { fork.odd } else { fork.even } }
        None => 0,
    }
}

/// What a key has in the map of a node; 0 is nothing.
pub fn found(forks: &[Fork], number: u32, key: u64) -> u32
    ensures { (fuel : ℕ) → key ≤ fuel → result ≡ found forks.now fuel number key }
{
    let node = node(forks, number);
    if key == 0 {
        return here_of(node);
    }
    found(forks, behind(key % 2 == 1, node), key / 2)
}

/// A node with another one behind a bit.
#[tactic(auto, using(crate::proofs::TrieLaws::odd_side, crate::proofs::TrieLaws::even_side))]
fn forked(is_set: bool, child: u32, node: Option<Fork>) -> Fork
    ensures here { result.here ≡ here_of node }
    ensures sides { (side : Bool) → Side is_set child node result side }
{
    let here = here_of(node);
    if is_set {
        Fork {
            here,
            even: behind(false, node),
            odd: child,
        }
    } else {
        Fork {
            here,
            even: child,
            odd: behind(true, node),
        }
    }
}

/// Adds a node behind the others, and hands out its number.
fn push(forks: &mut Items<Fork>, fork: Fork) -> Result<u32, NoMemory>
    ensures ok { OnOk result (forks.new ≡ forks.old ++ fork ∷ []) }
    ensures number { IfOk result (λ number. number ≡ length forks.old + 1) }
    ensures err { OnErr result (forks.new ≡ forks.old) }
{
    let len = forks.len();
    if len >= 0xFFFF_FFFF {
        return Err(NoMemory);
    }
    forks.push(fork)?;
    Ok(len as u32 + 1)
}

/// Adds a map: that of a node, in which a key has that value. The maps that are there stay.
pub fn with(forks: &mut Items<Fork>, number: u32, key: u64, value: u32) -> Result<u32, NoMemory>
    requires closed { IsClosed forks.old }
    ensures closed { IsClosed forks.new }
    ensures grows { length forks.old ≤ length forks.new }
    ensures same { (fuel n k : ℕ) → n ≤ length forks.old
        → found forks.new fuel n k ≡ found forks.old fuel n k }
    ensures number { IfOk result (λ made. made ≤ length forks.new) }
    ensures value { IfOk result (λ made. (fuel k : ℕ) → k ≤ fuel
        → found forks.new fuel made k
        ≡ (if key == k then value else found forks.old fuel number k)) }
{
    let node = node(forks.as_slice(), number);
    if key == 0 {
        let fork = Fork {
            here: value,
            even: behind(false, node),
            odd: behind(true, node),
        };
        return push(forks, fork);
    }
    let is_set = key % 2 == 1;
    let child = with(forks, behind(is_set, node), key / 2, value)?;
    push(forks, forked(is_set, child, node))
}

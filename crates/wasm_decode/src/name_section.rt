//! The names of functions (Core, appendix "Custom Sections", A.4.1).

ghost use Rattle.std.specs.Prelude.{◌≡◌, ◌<◌, ◌^◌, List, [], length, IfOk, OnOk};
ghost use Rattle.std.specs.BTreeMap.{get};
ghost use Rattle.std.specs.Option.{option_copied};
ghost use Rattle.std.specs.Ordering.{nat_cmp};
ghost use Rattle.wasm_bytes.specs.Place.{Moves, Stays};
ghost use Rattle.wasm_bytes.specs.Reading.{steps_to_end};
ghost use Rattle.wasm_bytes.specs.calls.Answers.{Gives, with_state};
ghost use Rattle.wasm_decode.specs.calls.NameGrammar.{AreNamesOf};
ghost use Rattle.wasm_decode.specs.Names.{Named, name_of, with_name, names_from, name_step, name_steps, names_item};
ghost use Rattle.wasm_decode.specs.Names.{subsection_step, names_in};
ghost use Rattle.wasm_decode.specs.inner.NamePlaces.{ArePlaced};

use crate::Input;
use causes::NoMemory;
use pm_text::Text;
use std::alloc::Global;
use std::collections::BTreeMap;
use std::marker::Model;
use wasm_bytes::{Gather, ItemFault, gather_count};
use wasm_syntax::{Custom, Module};

/// Names by the indices of functions, which contracts see as pairs in the order of their first
/// mention. Places stand in an ordered map: indices that collide make a hash slow.
#[derive(Drop)]
pub struct Names {
    names: Vec<(u32, Text)>,
    // Where the name of each index stands.
    places: BTreeMap<u32, usize>,
}

impl Model for Names {
    ghost use Rattle.std.specs.Prelude.{ℕ, List};
    ghost use Rattle.std.specs.BTreeMap.{get};
    ghost use Rattle.std.specs.Ordering.{nat_cmp};
    ghost use Rattle.wasm_decode.specs.inner.NamePlaces.{ArePlaced};

    ghost Value = { List (ℕ × List ℕ) };

    ghost view = { λ n. n.names.items };

    ghost invariant = { λ n. ArePlaced n.names.items (get nat_cmp n.places) };
}

impl Names {
    /// No names.
    #[tactic(auto, using(crate::proofs::NamePlaces::none_placed))]
    fn new(alloc: Global) -> Self
        ensures { result ≡ [] }
    {
        Names {
            names: Vec::new(alloc),
            places: BTreeMap::new(alloc),
        }
    }

    /// Keeps a name, where its index has none yet.
    fn add(&mut self, index: u32, name: Text) -> Result<(), NoMemory>
        ensures { OnOk result (self.new ≡ with_name self.old (index, name)) }
    {
        if self.places.contains_key(&index) {
            return Ok(());
        }
        let place = self.names.len();
        self.names.push((index, name))?;
        match self.places.insert(index, place) {
            Ok(_) => Ok(()),
            Err(_) => {
                self.names.pop();
                Err(NoMemory)
            }
        }
    }

    /// The name of a function, or None where it has none.
    pub fn get(&self, function: u32) -> Option<&str>
        ensures { option_copied result ≡ name_of self.now function }
    {
        let place = self.places.get(&function)?;
        match self.names.get(*place) {
            Some(named) => Some(named.1.as_str()),
            None => None,
        }
    }
}

/// An index and a name.
impl<'a> Gather<Input<'a>> for Names {
    ghost step = { name_step };

    #[tactic(auto, unfolding(crate::specs::Names::named_item, crate::specs::Names::name_step))]
    fn take(&mut self, alloc: Global, input: &mut Input<'a>) -> Result<(), ItemFault> {
        let index = input.u32()?;
        let name = input.item::<Text>(alloc)?;
        self.add(index, name)?;
        Ok(())
    }
}

#[tactic(auto, unfolding(crate::specs::Names::name_steps))]
fn kept_names(alloc: Global, input: &mut Input<'_>) -> Result<Names, ItemFault>
    ensures item { Gives result input.new (name_steps input.old) }
    ensures stays { OnOk result (Stays input.old input.new) }
{
    let count = input.u32()?;
    let mut names = Names::new(alloc);
    gather_count(alloc, count, &mut names, input)?;
    Ok(names)
}

/// A vector of names, of which the first one of each index is kept.
fn name_vector(alloc: Global, input: &mut Input<'_>) -> Result<Names, ItemFault>
    ensures item { Gives result input.new (names_item input.old) }
    ensures stays { OnOk result (Stays input.old input.new) }
{
    kept_names(alloc, input)
}

/// A subsection. Only the first one of function names counts.
#[tactic(auto, unfolding(crate::specs::Names::subsection_step))]
fn subsection(
    alloc: Global,
    found: &mut Option<Names>,
    input: &mut Input<'_>,
) -> Result<(), ItemFault>
    ensures item { Gives (with_state found.new result) input.new
        (subsection_step found.old input.old) }
    ensures moves { OnOk result (Moves input.old input.new) }
{
    let id = input.byte()?;
    let mut inner = input.open()?;
    if id == 1 && found.is_none() {
        let names = name_vector(alloc, &mut inner)?;
        inner.end()?;
        *found = Some(names);
    } else {
        inner.rest();
        inner.end()?;
    }
    Ok(())
}

fn subsections(
    alloc: Global,
    found: &mut Option<Names>,
    input: &mut Input<'_>,
) -> Result<(), ItemFault>
    ensures item { Gives (with_state found.new result) input.new
        (steps_to_end subsection_step found.old input.old) }
    ensures stays { OnOk result (Stays input.old input.new) }
{
    'subsections: while input.left() > 0 {
        subsection(alloc, found, input)?;
    }
    Ok(())
}

/// The names that a custom section gives, or none where an item has no reading.
#[tactic(auto, unfolding(crate::specs::Names::names_in))]
fn section_names(alloc: Global, bytes: &[u8], custom: &Custom) -> Result<Names, NoMemory>
    requires { length bytes.now < 2 ^ 32 }
    ensures { IfOk result (λ names. names ≡ names_in bytes.now custom.now) }
{
    let end = custom.at as usize + custom.len as usize;
    if end > bytes.len() {
        return Ok(Names::new(alloc));
    }
    let mut input = Input::between(bytes, custom.at, end);
    let mut found = None;
    match subsections(alloc, &mut found, &mut input) {
        Ok(()) => match found {
            Some(names) => Ok(names),
            None => Ok(Names::new(alloc)),
        },
        Err(ItemFault::At(_)) => Ok(Names::new(alloc)),
        Err(ItemFault::NoMemory) => Err(NoMemory),
    }
}

fn first_names(alloc: Global, bytes: &[u8], customs: &[Custom]) -> Result<Names, NoMemory>
    requires { length bytes.now < 2 ^ 32 }
    ensures { IfOk result (λ names. names ≡ names_from bytes.now customs.now) }
{
    for custom in customs {
        if custom.name.as_str() == "name" {
            return section_names(alloc, bytes, custom);
        }
    }
    Ok(Names::new(alloc))
}

/// The names of functions that the first custom section `name` of a module gives: its first
/// subsection of function names, in which the first name of an index counts. There are none where
/// the section or the subsection is not there, or where an item of the section has no reading. The
/// bytes are those that the module was decoded from.
pub fn function_names(alloc: Global, bytes: &[u8], module: &Module) -> Result<Names, NoMemory>
    requires { length bytes.now < 2 ^ 32 }
    ensures exact { IfOk result (λ names. names ≡ names_from bytes.now «module».now.customs) }
    ensures spelled { IfOk result (AreNamesOf bytes.now «module».now.customs) }
    ensures only { (names : List Named) → AreNamesOf bytes.now «module».now.customs names
        → IfOk result (λ found. found ≡ names) }
{
    first_names(alloc, bytes, module.parts().customs.as_slice())
}

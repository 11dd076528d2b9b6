//! Addresses by their indices.

ghost use Rattle.std.specs.Prelude.{◌≡◌, OnOk};
ghost use Rattle.wasm_bytes.specs.Place.{Moves};
ghost use Rattle.wasm_bytes.specs.calls.Answers.{Reads};
ghost use Rattle.dwarf_bytes.specs.Items.{number_item, read_at};
ghost use Rattle.dwarf_loc.specs.Addresses.{table, address_of};
ghost use Rattle.dwarf_loc.specs.Version5.{indexed_item};

use crate::read_address;
use std::marker::Model;
use wasm_bytes::{Malformed, Reader};

/// The addresses of a unit: the table of `.debug_addr` at the unit's base, or none (DWARF 5, 7.27).
#[derive(Drop)]
pub struct AddressTable<'a> {
    section: &'a [u8],
    base: Option<u32>,
}

impl<'a> Model for AddressTable<'a> {
    ghost use Rattle.dwarf_loc.specs.Addresses.{Table, table};

    ghost Value = { Table };

    ghost view = { λ t. table t.section.now t.base };
}

/// What is read of 4 bytes at an offset.
#[tactic(auto, using(crate::proofs::Numbers::past_section))]
fn address_at(section: &[u8], at: u128) -> Option<u32>
    ensures { result ≡ read_at (number_item 4) section.now at }
{
    if at > section.len() as u128 {
        return None;
    }
    match read_address(&mut Reader::starting_at(section, at as usize)) {
        Ok(address) => Some(address),
        Err(_) => None,
    }
}

impl<'a> AddressTable<'a> {
    pub fn new(section: &'a [u8], base: Option<u32>) -> Self
        ensures { result ≡ table section.now base }
    {
        AddressTable { section, base }
    }

    /// The address of an index, where the unit has a base and the table has such an entry.
    pub fn get(&self, index: u64) -> Option<u32>
        ensures { result ≡ address_of self.now index }
    {
        match self.base {
            Some(base) => address_at(self.section, u128::from(base) + 4 * u128::from(index)),
            None => None,
        }
    }
}

/// An index, and its address. An index without an address has no reading.
#[tactic(auto, unfolding(crate::specs::Version5::indexed_item))]
pub fn indexed(addresses: &AddressTable<'_>, reader: &mut Reader<'_>) -> Result<u32, Malformed>
    ensures item { Reads result reader.new (indexed_item (address_of addresses.now) reader.old) }
    ensures moves { OnOk result (Moves reader.old reader.new) }
{
    let at = reader.at();
    let index = reader.u64()?;
    match addresses.get(index) {
        Some(address) => Ok(address),
        None => Err(Malformed { at }),
    }
}

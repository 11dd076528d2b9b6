//! An expression with the address itself in place of each index of one.

ghost use Rattle.std.specs.Prelude.{◌≡◌, ◌++◌, ◌∷◌, IfOk, OnOk};
ghost use Rattle.std.specs.Int.{w32, to_le_bytes};
ghost use Rattle.wasm_bytes.specs.Place.{Moves};
ghost use Rattle.wasm_bytes.specs.calls.Answers.{Reads};
ghost use Rattle.dwarf_loc.specs.Addresses.{address_of};
ghost use Rattle.dwarf5_info.specs.Plain.{address_item, replaced, plain};

use causes::NoMemory;
use dwarf_expr::read_operator;
use dwarf_loc::AddressTable;
use pm_text::Items;
use std::alloc::Global;
use wasm_bytes::{Malformed, Reader};

/// Goes over an operator. The address that stands for it, where it is addrx and its index has one.
#[tactic(auto, unfolding(crate::specs::Plain::address_item))]
fn read_address(
    addresses: &AddressTable<'_>,
    reader: &mut Reader<'_>,
) -> Result<Option<u32>, Malformed>
    ensures item { Reads result reader.new (address_item (address_of addresses.now) reader.old) }
    ensures moves { OnOk result (Moves reader.old reader.new) }
{
    let opcode = reader.byte()?;
    if opcode == 0xA1 {
        let index = reader.u64()?;
        return Ok(addresses.get(index));
    }
    read_operator(opcode, reader)?;
    Ok(None)
}

/// Appends addr with the address.
fn push_address(plain: &mut Items<u8>, address: u32) -> Result<(), NoMemory>
    ensures { OnOk result (plain.new ≡ plain.old ++ 0x03 ∷ to_le_bytes w32 address) }
{
    plain.push(0x03)?;
    plain.extend_from_slice(&address.to_le_bytes())
}

/// Appends an operator, or addr with the address that stands for it.
fn push_operator(
    plain: &mut Items<u8>,
    address: Option<u32>,
    operator: &[u8],
) -> Result<(), NoMemory>
    ensures { OnOk result (plain.new ≡ plain.old ++ replaced address operator.now) }
{
    match address {
        Some(address) => push_address(plain, address),
        None => plain.extend_from_slice(operator),
    }
}

/// The expression with addr in place of each addrx whose index has an address, up to the first
/// operator that is not known or has no reading.
pub fn with_addresses(
    alloc: Global,
    addresses: &AddressTable<'_>,
    expr: &[u8],
) -> Result<Items<u8>, NoMemory>
    ensures exact { IfOk result (λ bytes. bytes ≡ plain (address_of addresses.now) expr.now) }
{
    let mut plain = Items::new(alloc);
    let mut reader = Reader::new(expr);
    'operators: loop {
        let from = reader.at();
        let Ok(address) = read_address(addresses, &mut reader) else {
            plain.extend_from_slice(&expr[from..])?;
            return Ok(plain);
        };
        let to = reader.at();
        push_operator(&mut plain, address, &expr[from..to])?;
    }
}

//! Reading tables of abbreviations.

ghost use Rattle.std.specs.Prelude.{ℕ, ◌≡◌, IfOk, OnOk, List, Bool};
ghost use Rattle.wasm_bytes.specs.Place.{Place, Read, Moves};
ghost use Rattle.wasm_bytes.specs.Reading.{◌▷◌, mapped, done_item, one_of_item, u64_item};
ghost use Rattle.wasm_bytes.specs.calls.Answers.{Gives, Reads};
ghost use Rattle.dwarf_bytes.specs.Items.{ended_item, read_at};
ghost use Rattle.dwarf_bytes.specs.calls.Spelled.{StandsAt};
ghost use Rattle.dwarf_bytes.specs.calls.Answers.{Answers, found_at};
ghost use Rattle.dwarf_abbrev.specs.declared.abbrev.Abbrev.{Abbrev as AbbrevThere};
ghost use Rattle.dwarf_abbrev.specs.Reading.{pair_item, is_flag, is_one, behind_code, abbrev_of, abbrevs_item};
ghost use Rattle.dwarf_abbrev.specs.Reading.{abbrevs_at};
ghost use Rattle.dwarf_abbrev.specs.calls.Grammar.{abbrevs};

use crate::abbrev::{Abbrev, Abbrevs, Pair};
use crate::table::Table;
use causes::NoMemory;
use dwarf_bytes::{Ended, ReadFault, ended_items};
use pm_text::Items;
use std::alloc::Global;
use wasm_bytes::{ItemFault, Malformed, Reader};

impl<'a> Ended<'a> for Pair {
    ghost item = { pair_item done_item };

    #[tactic(auto, unfolding(crate::specs::Reading::pair_item))]
    fn read(_alloc: Global, reader: &mut Reader<'a>) -> Result<Option<Pair>, ItemFault> {
        let attribute = reader.u64()?;
        let form = reader.u64()?;
        if attribute == 0 && form == 0 {
            return Ok(None);
        }
        Ok(Some(Pair { attribute, form }))
    }
}

/// A type whose values stand in tables of abbreviations, made of code, tag, whether there are
/// children, and pairs.
pub trait Row<'a>: Drop {
    type Pair: Ended<'a>;

    ghost made: { ℕ → ℕ → Bool → List Self.Pair → Self };

    fn made(code: u64, tag: u64, children: bool, pairs: Items<Self::Pair>) -> Self
        ensures { result ≡ made code tag children pairs };
}

/// Whether there are children: the byte 0 or 1.
#[tactic(auto, unfolding(wasm_bytes::specs::Reading::one_of_item))]
pub fn read_flag<'a>(reader: &mut Reader<'a>) -> Result<bool, Malformed>
    ensures item { Reads result reader.new (mapped is_one (one_of_item is_flag) reader.old) }
    ensures moves { OnOk result (Moves reader.old reader.new) }
{
    let start = reader.at();
    match reader.byte()? {
        0 => Ok(false),
        1 => Ok(true),
        _ => Err(Malformed { at: start }),
    }
}

/// A row of a table of abbreviations, or None for the code 0, which ends the table.
pub fn read_row<'a, R: Row<'a>>(
    alloc: Global,
    reader: &mut Reader<'a>,
) -> Result<Option<R>, ItemFault>
    ensures item { Gives result reader.new
        ((u64_item ▷ behind_code R.made R.Pair.item) reader.old) }
    ensures moves { OnOk result (Moves reader.old reader.new) }
{
    let code = reader.u64()?;
    if code == 0 {
        return Ok(None);
    }
    let tag = reader.u64()?;
    let children = read_flag(reader)?;
    match ended_items(alloc, reader) {
        Ok(pairs) => Ok(Some(R::made(code, tag, children, pairs))),
        Err(fault) => Err(fault),
    }
}

impl<'a> Row<'a> for Abbrev {
    type Pair = Pair;

    ghost made = { abbrev_of };

    fn made(code: u64, tag: u64, children: bool, pairs: Items<Pair>) -> Abbrev
        ensures { result ≡ abbrev_of code tag children pairs }
    {
        Abbrev {
            code,
            tag,
            children,
            pairs,
        }
    }
}

impl<'a> Ended<'a> for Abbrev {
    ghost item = { u64_item ▷ behind_code abbrev_of (pair_item done_item) };

    fn read(alloc: Global, reader: &mut Reader<'a>) -> Result<Option<Abbrev>, ItemFault> {
        read_row(alloc, reader)
    }
}

/// The abbreviations at a place, in order.
#[tactic(auto, unfolding(crate::specs::Reading::table_item, crate::specs::Reading::abbrevs_item))]
pub fn abbrevs<'a>(alloc: Global, reader: &mut Reader<'a>) -> Result<Items<Abbrev>, ItemFault>
    ensures item { Gives result reader.new (abbrevs_item reader.old) }
    ensures moves { OnOk result (Moves reader.old reader.new) }
{
    ended_items(alloc, reader)
}

/// The abbreviations of the table at an offset of `.debug_abbrev`, in order. The first one of a
/// code counts.
///
/// # Errors
///
/// `Unreadable` with this offset where no table stands there; `NoMemory` where memory runs out.
pub fn read_abbrevs(alloc: Global, section: &[u8], at: usize) -> Result<Abbrevs, ReadFault>
    ensures exact { Answers result (found_at at (abbrevs_at section.now at)) }
    ensures spelled { IfOk result (λ table. StandsAt abbrevs table section.now at) }
    ensures unreadable { result ≡ Err (ReadFault.Unreadable at) → (table : List AbbrevThere)
        → StandsAt abbrevs table section.now at → ⊥ }
{
    if at > section.len() {
        return Err(ReadFault::Unreadable { at });
    }
    match abbrevs(alloc, &mut Reader::starting_at(section, at)) {
        Ok(items) => match Table::new(alloc, items) {
            Ok(table) => Ok(table),
            Err(NoMemory) => Err(ReadFault::NoMemory),
        },
        Err(ItemFault::At(_)) => Err(ReadFault::Unreadable { at }),
        Err(ItemFault::NoMemory) => Err(ReadFault::NoMemory),
    }
}

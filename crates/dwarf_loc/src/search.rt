//! The entry of a list that counts for an address.

ghost use Rattle.std.specs.Prelude.{ℕ, ◌≡◌, ◌<◌, pos, Option, option_map, OnOk};
ghost use Rattle.wasm_bytes.specs.Place.{Place, Read, Moves};
ghost use Rattle.wasm_bytes.specs.Reading.{mapped};
ghost use Rattle.wasm_bytes.specs.calls.Answers.{Reads};
ghost use Rattle.dwarf_bytes.specs.Items.{ended_item, read_at};
ghost use Rattle.dwarf_bytes.specs.calls.Answers.{found_at};
ghost use Rattle.dwarf_loc.specs.declared.entry.ListEntry.{ListEntry as Listed};
ghost use Rattle.dwarf_loc.specs.Lists.{held, holds, is_between, chosen};
ghost use Rattle.dwarf_loc.specs.calls.Said.{first_of};
ghost use Rattle.dwarf_loc.specs.inner.Search.{holding, taken};

use crate::entry::ListEntry;
use dwarf_bytes::ReadFault;
use wasm_bytes::{Malformed, Reader};

/// How the entries of a kind of list are read.
pub trait Entries {
    /// What an entry holds.
    type What: Drop;

    /// The entry, none where it is the end mark, and the place behind it, or the offset of the
    /// first item without a reading.
    ghost item: { Self → Place → Read (Option (Listed Self.What)) };

    fn read(&self, reader: &mut Reader<'_>) -> Result<Option<ListEntry<Self::What>>, Malformed>
        ensures item { Reads result reader.new (item self.now reader.old) }
        ensures moves { OnOk result (Moves reader.old reader.new) };
}

/// What the front of a list says of an address.
#[derive(Drop)]
struct Search<T> {
    address: u32,
    /// The base of the entries behind the front.
    base: u32,
    /// What the first entry holds that holds the address.
    held: Option<T>,
    /// What counts where no entry holds the address.
    default: Option<T>,
}

/// The first of two.
pub fn first_of<T: Drop>(first: Option<T>, later: Option<T>) -> Option<T>
    ensures { result ≡ first_of first later }
{
    match first {
        Some(value) => Some(value),
        None => later,
    }
}

/// Sums of addresses are whole numbers.
pub fn is_between(begin: u128, address: u32, end: u128) -> bool
    ensures { result ≡ is_between (begin, pos end) address }
{
    let address = u128::from(address);
    begin <= address && address < end
}

impl<T: Drop> Search<T> {
    fn hold(self, begin: u128, end: u128, what: T) -> Self
        ensures { result ≡ holding self begin end what }
    {
        if is_between(begin, self.address, end) {
            Search {
                held: first_of(self.held, Some(what)),
                ..self
            }
        } else {
            self
        }
    }

    /// The next entry.
    fn take(self, entry: ListEntry<T>) -> Self
        ensures { result ≡ taken self entry }
    {
        let base = u128::from(self.base);
        match entry {
            ListEntry::Base(address) => Search {
                base: address,
                ..self
            },
            ListEntry::FromBase { begin, end, what } => {
                self.hold(base + u128::from(begin), base + u128::from(end), what)
            }
            ListEntry::Between { begin, end, what } => {
                self.hold(u128::from(begin), u128::from(end), what)
            }
            ListEntry::Lasting {
                begin,
                length,
                what,
            } => self.hold(
                u128::from(begin),
                u128::from(begin) + u128::from(length),
                what,
            ),
            ListEntry::Otherwise(what) => Search {
                default: first_of(self.default, Some(what)),
                ..self
            },
        }
    }
}

/// Reads a list up to its end mark, also behind the entry that counts.
#[tactic(auto, unfolding(dwarf_bytes::specs::Items::ended_item))]
fn chosen<E: Entries>(
    entries: &E,
    reader: &mut Reader<'_>,
    base: u32,
    address: u32,
) -> Result<Option<E::What>, Malformed>
    ensures item { Reads result reader.new
        (mapped (chosen base address) (ended_item (E.item entries.now)) reader.old) }
{
    let mut search = Search {
        address,
        base,
        held: None,
        default: None,
    };
    'entries: loop {
        // The place is inside its block, so that fewer bytes are left behind it.
        let _at = reader.at();
        let Some(entry) = entries.read(reader)? else {
            return Ok(first_of(search.held, search.default));
        };
        search = search.take(entry);
    }
}

/// What the entry of a list holds that counts for an address (DWARF 5, 2.6.2): the first one that
/// holds the address, or a default where there is none.
///
/// # Errors
///
/// `Unreadable` with this offset where no list stands there, up to its end mark.
pub fn chosen_at<E: Entries>(
    entries: &E,
    section: &[u8],
    at: usize,
    base: u32,
    address: u32,
) -> Result<Option<E::What>, ReadFault>
    ensures exact { result ≡ found_at at
        (option_map (chosen base address)
        (read_at (ended_item (E.item entries.now)) section.now at)) }
{
    if at > section.len() {
        return Err(ReadFault::Unreadable { at });
    }
    let mut reader = Reader::starting_at(section, at);
    match chosen(entries, &mut reader, base, address) {
        Ok(what) => Ok(what),
        Err(_) => Err(ReadFault::Unreadable { at }),
    }
}

//! Kinds of entries.

ghost use Rattle.std.specs.Prelude.{◌≡◌};
ghost use Rattle.dwarf_loc.specs.Kinds.{location_kind, range_kind};

/// What an entry of a list says (DWARF 5, 2.6.2 and 2.17.3).
#[derive(Clone, Copy, Drop)]
pub enum EntryKind {
    EndOfList,
    /// The base of the entries behind it, by its index.
    BaseAddressx,
    /// Two addresses by their indices.
    StartxEndx,
    /// An address by its index, and how many.
    StartxLength,
    /// Two offsets from the base.
    OffsetPair,
    /// What counts where no other entry holds the address.
    DefaultLocation,
    /// The base of the entries behind it.
    BaseAddress,
    StartEnd,
    StartLength,
}

const LOCATION_KINDS: [EntryKind; 9] = [
    EntryKind::EndOfList,
    EntryKind::BaseAddressx,
    EntryKind::StartxEndx,
    EntryKind::StartxLength,
    EntryKind::OffsetPair,
    EntryKind::DefaultLocation,
    EntryKind::BaseAddress,
    EntryKind::StartEnd,
    EntryKind::StartLength,
];

const RANGE_KINDS: [EntryKind; 8] = [
    EntryKind::EndOfList,
    EntryKind::BaseAddressx,
    EntryKind::StartxEndx,
    EntryKind::StartxLength,
    EntryKind::OffsetPair,
    EntryKind::BaseAddress,
    EntryKind::StartEnd,
    EntryKind::StartLength,
];

/// The kind of an entry of a location list by its number (7.7.3).
pub fn location_kind(code: u8) -> Option<EntryKind>
    ensures { result ≡ location_kind code }
{
    LOCATION_KINDS.get(usize::from(code)).copied()
}

/// The kind of an entry of a range list by its number (7.25).
pub fn range_kind(code: u8) -> Option<EntryKind>
    ensures { result ≡ range_kind code }
{
    RANGE_KINDS.get(usize::from(code)).copied()
}

//! Entries of lists.

/// An entry of a location list or a range list, of any version (DWARF 4, 2.6.2 and 2.17.3; DWARF 5,
/// 2.6.2 and 2.17.3). It holds something: the place of an expression, or nothing.
#[derive(Drop)]
pub enum ListEntry<T> {
    /// The base of the entries behind it.
    Base(u32),
    /// From `begin` up to but not including `end`, both counted from the base.
    FromBase { begin: u64, end: u64, what: T },
    /// From `begin` up to but not including `end`, both addresses.
    Between { begin: u32, end: u32, what: T },
    /// So many addresses, from `begin` on.
    Lasting { begin: u32, length: u64, what: T },
    /// What counts where no other entry holds the address.
    Otherwise(T),
}

//! Discriminants of variant parts.

/// The number that a discriminant is.
#[derive(Clone, Copy, Drop)]
pub struct Discriminant {
    /// In bytes.
    pub size: u64,
    pub signed: bool,
    pub number: i128,
}

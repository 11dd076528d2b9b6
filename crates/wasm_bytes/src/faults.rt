//! Why an item is not read.

ghost use Rattle.std.specs.Prelude.{◌≡◌};
ghost use Rattle.wasm_bytes.specs.declared.faults.ItemFault.TheVariants.{At, NoMemory};

use std::alloc::{AllocError, AllocFailed};

/// The item at this offset has no reading. Offsets are in bytes from the first byte of the input.
#[derive(Clone, Copy, Debug, PartialEq, Eq)]
pub struct Malformed {
    pub at: usize,
}

/// Why a value that takes memory is not read.
#[derive(Clone, Copy, Debug)]
pub enum ItemFault {
    /// The item at this offset has no reading. Offsets are in bytes from the first byte of the
    /// input.
    At(usize),
    /// Memory ran out.
    NoMemory,
}

impl From<Malformed> for ItemFault {
    ghost from_gives = { λ m e. e ≡ At m.at };

    fn from(m: Malformed) -> ItemFault {
        ItemFault::At(m.at)
    }
}

impl From<causes::NoMemory> for ItemFault {
    ghost from_gives = { λ _ e. e ≡ NoMemory };

    fn from(_e: causes::NoMemory) -> ItemFault {
        ItemFault::NoMemory
    }
}

impl From<AllocError> for ItemFault {
    ghost from_gives = { λ _ e. e ≡ NoMemory };

    fn from(_e: AllocError) -> ItemFault {
        ItemFault::NoMemory
    }
}

impl<T: Drop> From<AllocFailed<T>> for ItemFault {
    ghost from_gives = { λ _ e. e ≡ NoMemory };

    fn from(_e: AllocFailed<T>) -> ItemFault {
        ItemFault::NoMemory
    }
}

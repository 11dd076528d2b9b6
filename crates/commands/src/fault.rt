//! Why words are refused.

use causes::NoMemory;

/// Why words give no command.
#[derive(Clone, Copy)]
pub enum WordsFault {
    /// The words are outside the rules, or ask for no command.
    Usage,
    NoMemory,
}

impl From<NoMemory> for WordsFault {
    ghost use Rattle.std.specs.Prelude.{◌≡◌};
    ghost use Rattle.commands.specs.declared.fault.WordsFault.TheVariants.{NoMemory};

    ghost from_gives = { λ _ fault. fault ≡ NoMemory };

    fn from(_e: NoMemory) -> WordsFault {
        WordsFault::NoMemory
    }
}

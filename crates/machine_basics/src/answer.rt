//! What performing an instruction answers.

ghost use Rattle.std.specs.Prelude.{◌≡◌};
ghost use Rattle.machine_basics.specs.calls.Traps.{trap_code};

/// Why an instruction traps.
#[derive(Clone, Copy, PartialEq, Eq)]
pub enum TrapKind {
    Unreachable,
    DivideByZero,
    /// The quotient of a signed division is past the range.
    Overflow,
    /// A range of bytes passes the end of the memory.
    OutOfBounds,
    /// The table has no such entry.
    UndefinedElement,
    /// The table's entry holds no function.
    UninitializedElement,
    /// The table's entry holds a function of another type.
    TypeMismatch,
    /// There are as many frames as may be.
    StackExhausted,
}

impl TrapKind {
    /// The number of the kind.
    pub fn code(self) -> u32
        ensures { result ≡ trap_code self }
    {
        match self {
            TrapKind::Unreachable => 1,
            TrapKind::DivideByZero => 2,
            TrapKind::Overflow => 3,
            TrapKind::OutOfBounds => 4,
            TrapKind::UndefinedElement => 5,
            TrapKind::UninitializedElement => 6,
            TrapKind::TypeMismatch => 7,
            TrapKind::StackExhausted => 8,
        }
    }
}

/// What performing an instruction did. After a trap or want of memory nothing is changed.
#[derive(Clone, Copy, PartialEq, Eq)]
pub enum Performed {
    Done,
    Trap(TrapKind),
    NoMemory,
}

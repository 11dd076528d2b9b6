//! A command of the debugger.

/// What a command asks for.
#[derive(Clone, Copy, PartialEq, Eq)]
pub enum Command {
    /// The lines of each frame.
    Backtrace,
    /// The frame of this number is chosen.
    Frame { number: u64 },
    Locals,
    Operands,
    Globals,
    /// The variables that are visible.
    Variables,
    /// The value at a path, which is the word behind.
    Print,
    /// So many bytes of the memory from an address on.
    Examine { address: u64, count: u64 },
    /// The text is no command.
    Bad,
}

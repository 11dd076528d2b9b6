//! How the program ends.

ghost use Rattle.std.specs.Prelude.{◌≡◌};

/// How a command ended.
#[derive(Clone, Copy, PartialEq, Eq)]
pub enum Status {
    /// The command did what it says.
    Done,
    /// The run ended in a trap.
    Trapped,
    /// The words are no command.
    Usage,
    /// A file to read is absent.
    NoFile,
    /// A call on the files or on the output failed.
    FileFault,
    /// The bytes are no module.
    Malformed,
    /// The module has a float, or imports something else than functions.
    Outside,
    /// The module has no typing.
    Invalid,
    /// The run could not begin.
    NotStarted,
    /// A host function gave no reply, or one that does not fit.
    HostStopped,
    /// The run was still going when the fuel was spent.
    FuelSpent,
    /// The bytes are no dump, or hold a float value, or hold a part twice.
    BadDump,
    /// The dump can't be one of this module.
    Mismatch,
    /// A counted quantity of the input passes its number.
    Limit,
    /// The module has a name that the instrumented one needs.
    Collision,
    /// Memory ran out.
    NoMemory,
    /// The collector calls of a run are no whole dump.
    TornCalls,
    /// A line of the replies file can't be read.
    BadReplies,
}

impl Status {
    ghost use Rattle.commands.specs.calls.Codes.{code_of};

    /// The exit status of the program.
    pub fn code(&self) -> u8
        ensures { result ≡ code_of self.now }
    {
        match self {
            Status::Done => 0,
            Status::Trapped => 1,
            Status::Usage => 2,
            Status::NoFile => 3,
            Status::FileFault => 4,
            Status::Malformed => 5,
            Status::Outside => 6,
            Status::Invalid => 7,
            Status::NotStarted => 8,
            Status::HostStopped => 9,
            Status::FuelSpent => 10,
            Status::BadDump => 11,
            Status::Mismatch => 12,
            Status::Limit => 13,
            Status::Collision => 14,
            Status::NoMemory => 15,
            Status::TornCalls => 16,
            Status::BadReplies => 17,
        }
    }
}

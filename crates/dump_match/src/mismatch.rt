//! Why a dump can't be one of a module.

/// The first test that fails.
#[derive(Clone, Copy, PartialEq, Eq)]
pub enum Mismatch {
    /// There is not exactly one instance; or the index of its module, its list of memories, or one
    /// of its globals is out of range; or a frame is of another instance.
    Instance,
    /// The module has no memory, or none that can have so many pages.
    Memory,
    /// The recorded global has another type than that of the module, or another value than an
    /// immutable one; or only one of the two is there.
    Global { index: u32 },
    /// The module defines no such function.
    Function { frame: u32 },
    /// No instruction other than `else` and `end` begins there, or it is in dead code.
    Offset { frame: u32 },
    /// The recorded locals are not as many as those of the function, or one is of another type.
    Locals { frame: u32 },
    /// The recorded operands are not as many as stand there, or one is of another type.
    Operands { frame: u32 },
    /// The frame is not the innermost one, and stands at no call.
    NotACall { frame: u32 },
    /// The call can't have called the function of the frame before it.
    Callee { frame: u32 },
}

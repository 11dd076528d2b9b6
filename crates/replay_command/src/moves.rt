//! A move between the steps of a run.

/// What a command of a replay asks for.
#[derive(Clone, Copy, PartialEq, Eq)]
pub enum Move {
    /// To the step of this number, or to the last one where there are not so many.
    Goto { step: u64 },
    /// One step back.
    Back,
    /// To the next step at which the innermost frame is of this function, at this code offset.
    Until { function: u32, offset: u32 },
    /// No move: a command on the state that is shown.
    Look,
}

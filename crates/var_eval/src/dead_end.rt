//! Why steps lead no further.

use var_values::Mark;

#[derive(Clone, Copy)]
pub enum DeadEnd {
    /// A step does not fit, for this reason.
    Marked(Mark),
    /// So far from the source that sums of offsets may not have 128 bits.
    TooFar,
    /// Memory ran out.
    NoMemory,
}
